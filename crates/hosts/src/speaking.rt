ghost use Rattle.std.specs.Prelude.{◌≡◌, ◌≤◌, length};
ghost use Rattle.plans.specs.Plans.{network};
ghost use Rattle.hosts.specs.Answered.{answered as answered_by, left_by};
ghost use Rattle.hosts.specs.Ends.{speak_on, speak_outcome, counted_over};

use crate::books::{LANE_ROOM, is_short, notebook_of, write_lane};
use crate::end_words::EndWords;
use crate::loading::loaded;
use crate::refused::HostRefusal;
use crate::refusing::answered;
use airs::Board;
use plans::Plan;
use rounds::Notebook;

// Puts what an end owes over a host's words. The end speaks on an empty board, from which its lane is read.
fn speak_round(
    plan: &Plan,
    end: EndWords,
    book: &Notebook,
    words: &mut [u32],
) -> Result<(), HostRefusal>
    requires { 121 ≤ length words.old }
    ensures answer { answered_by result ≡ answered_by (speak_on (network plan.now) end book.now.words) }
    ensures words { words.new ≡ left_by (speak_on (network plan.now) end book.now.words) (λ ws. counted_over ws words.old) words.old }
{
    let round = end.round()?;
    let mut board = Board::new();
    let spoken = round.speak(plan, &mut board, book);
    let site = round.saved().site;
    spoken?;
    write_lane(&board, site, words);
    Ok(())
}

// Puts what the end in a host's words owes over other words of the host.
fn speak(
    sheet: &[u32],
    state: &[u32],
    notebook: &[u32],
    words: &mut [u32],
) -> Result<(), HostRefusal>
    ensures answer { answered_by result ≡ answered_by (speak_outcome sheet.now state.now notebook.now words.old) }
    ensures words { words.new ≡ left_by (speak_outcome sheet.now state.now notebook.now words.old) (λ ws. counted_over ws words.old) words.old }
{
    if is_short(state, notebook) || words.len() < LANE_ROOM {
        return Err(HostRefusal::TooShort);
    }
    let plan = loaded(sheet)?;
    speak_round(&plan, EndWords::read(state), &notebook_of(notebook), words)
}

/// Puts the number of the words that a single end owes in its round, and behind it the words, into `words`.
#[unsafe(no_mangle)]
pub extern "C" fn rolgevin_end_speak(
    sheet: &[u32],
    state: &[u32],
    notebook: &[u32],
    words: &mut [u32],
) -> u32
    ensures answer { result ≡ answered_by (speak_outcome sheet.now state.now notebook.now words.old) }
    ensures words { words.new ≡ left_by (speak_outcome sheet.now state.now notebook.now words.old) (λ ws. counted_over ws words.old) words.old }
{
    answered(speak(sheet, state, notebook, words))
}
