ghost use Rattle.std.specs.Prelude.{◌≡◌, ◌++◌, drop};
ghost use Rattle.airs.specs.Boards.{board_lanes};
ghost use Rattle.plans.specs.Plans.{network};
ghost use Rattle.single_end.specs.Calls.{seen_taken};
ghost use Rattle.hosts.specs.Answered.{answered as answered_by, left_by};
ghost use Rattle.hosts.specs.Ends.{after_taking, take_on, take_outcome, state_in, kept_over, TakenFits};

use crate::books::{board_of, is_short, notebook_of, write_book};
use crate::end_words::{EndWords, Tag};
use crate::loading::loaded;
use crate::refused::HostRefusal;
use crate::refusing::answered;
use airs::Board;
use plans::Plan;
use rounds::Notebook;
use single_end::Taken;

// The words of what taking a round leads to.
fn taken_words(taken: Taken) -> EndWords
    requires { TakenFits (seen_taken taken) }
    ensures { result ≡ after_taking (seen_taken taken) }
{
    match taken {
        Taken::Round(round) => EndWords::of(Tag::Round, round.saved()),
        Taken::Weighing(weighing) => EndWords::of(Tag::Weighing, weighing.saved()),
    }
}

// Takes the round that some words tell, and gives the words of what it leads to.
fn take_round(
    plan: &Plan,
    end: EndWords,
    board: &Board,
    book: &mut Notebook,
) -> Result<EndWords, HostRefusal>
    ensures answer { result ≡ state_in (take_on (network plan.now) (board_lanes board.now) end book.old.words) }
    ensures book { book.new.words ≡ left_by (take_on (network plan.now) (board_lanes board.now) end book.old.words) (λ s. s.book) book.old.words }
{
    // The state is given up by a closure, as in weighing.rt: a helper for both would take their `give_up` too.
    let taken = end.round()?.take(plan, board, book).map_err(|(refusal, round)| {
        let _ = round.give_up();
        HostRefusal::Engine(refusal)
    })?;
    Ok(taken_words(taken))
}

// Takes a round for the end in a host's words, with what the host has heard.
fn take(
    sheet: &[u32],
    state: &mut [u32],
    heard: &[u32],
    notebook: &mut [u32],
) -> Result<(), HostRefusal>
    ensures answer { answered_by result ≡ answered_by (take_outcome sheet.now state.old heard.now notebook.old) }
    ensures state { state.new ≡ left_by (take_outcome sheet.now state.old heard.now notebook.old) (λ s. kept_over s.state state.old) state.old }
    ensures notebook { notebook.new ≡ left_by (take_outcome sheet.now state.old heard.now notebook.old) (λ s. s.book ++ drop 325 notebook.old) notebook.old }
{
    if is_short(state, notebook) {
        return Err(HostRefusal::TooShort);
    }
    let plan = loaded(sheet)?;
    let mut book = notebook_of(notebook);
    let next = take_round(&plan, EndWords::read(state), &board_of(heard), &mut book)?;
    next.write(state);
    write_book(&book, notebook);
    Ok(())
}

/// Has a single end take its round, with the pairs of words, site and word, that the host has heard in it.
#[unsafe(no_mangle)]
pub extern "C" fn rolgevin_end_take(
    sheet: &[u32],
    state: &mut [u32],
    heard: &[u32],
    notebook: &mut [u32],
) -> u32
    ensures answer { result ≡ answered_by (take_outcome sheet.now state.old heard.now notebook.old) }
    ensures state { state.new ≡ left_by (take_outcome sheet.now state.old heard.now notebook.old) (λ s. kept_over s.state state.old) state.old }
    ensures notebook { notebook.new ≡ left_by (take_outcome sheet.now state.old heard.now notebook.old) (λ s. s.book ++ drop 325 notebook.old) notebook.old }
{
    answered(take(sheet, state, heard, notebook))
}
