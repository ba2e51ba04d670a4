ghost use Rattle.std.specs.Prelude.{◌≡◌};
ghost use Rattle.plans.specs.Plans.{network};
ghost use Rattle.single_end.specs.Calls.{seen_weighed};
ghost use Rattle.hosts.specs.Answered.{answered as answered_by, left_by};
ghost use Rattle.hosts.specs.Ends.{after_weighing, weigh_on, weigh_outcome, kept_over, WeighedFits};

use crate::books::{is_short, notebook_of};
use crate::end_words::{EndWords, Tag};
use crate::loading::loaded;
use crate::refused::HostRefusal;
use crate::refusing::answered;
use plans::Plan;
use rounds::Notebook;
use single_end::Weighed;

// The words of what weighing a phase leads to.
fn weighed_words(weighed: Weighed) -> EndWords
    requires { WeighedFits (seen_weighed weighed) }
    ensures { result ≡ after_weighing (seen_weighed weighed) }
{
    match weighed {
        Weighed::Round(round) => EndWords::of(Tag::Round, round.saved()),
        Weighed::Done(done) => EndWords::of_done(done.bit()),
    }
}

// Weighs the phase that some words tell, and gives the words of what it leads to.
fn weigh_phase(plan: &Plan, end: EndWords, book: &Notebook) -> Result<EndWords, HostRefusal>
    ensures { result ≡ weigh_on (network plan.now) end book.now.words }
{
    let weighed = end.weighing()?.weigh(plan, book).map_err(|(refusal, weighing)| {
        let _ = weighing.give_up();
        HostRefusal::Engine(refusal)
    })?;
    Ok(weighed_words(weighed))
}

// Weighs a phase for the end in a host's words.
fn weigh(sheet: &[u32], state: &mut [u32], notebook: &[u32]) -> Result<(), HostRefusal>
    ensures answer { answered_by result ≡ answered_by (weigh_outcome sheet.now state.old notebook.now) }
    ensures state { state.new ≡ left_by (weigh_outcome sheet.now state.old notebook.now) (λ w. kept_over w state.old) state.old }
{
    if is_short(state, notebook) {
        return Err(HostRefusal::TooShort);
    }
    let plan = loaded(sheet)?;
    weigh_phase(&plan, EndWords::read(state), &notebook_of(notebook))?.write(state);
    Ok(())
}

/// Has a single end weigh its phase by its notebook.
#[unsafe(no_mangle)]
pub extern "C" fn rolgevin_end_weigh(sheet: &[u32], state: &mut [u32], notebook: &[u32]) -> u32
    ensures answer { result ≡ answered_by (weigh_outcome sheet.now state.old notebook.now) }
    ensures state { state.new ≡ left_by (weigh_outcome sheet.now state.old notebook.now) (λ w. kept_over w state.old) state.old }
{
    answered(weigh(sheet, state, notebook))
}
