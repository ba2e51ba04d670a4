ghost use Rattle.std.specs.Prelude.{◌≡◌, ◌*◌, ◌≤◌, length};
ghost use Rattle.airs.specs.Boards.{board_lanes};
ghost use Rattle.floors.specs.Views.{view};
ghost use Rattle.runs.specs.State.{opened};
ghost use Rattle.hosts.specs.Answered.{left_by};
ghost use Rattle.hosts.specs.Calls.{pair_in, pair_for, state_for};
ghost use Rattle.hosts.specs.Sheets.{sheet_network};
ghost use Rattle.hosts.specs.Replays.{run_reply, performed, answers_over, Replays};

use crate::calls::{in_words, named_call};
use crate::loading::loaded;
use crate::refused::HostRefusal;
use crate::refusing::answered;
use airs::Board;
use floors::Floor;
use runs::{Call, Value};
use sites::SiteMask;

// Answers one call.
fn answer(floor: &mut Floor<Board>, call: Option<Call>) -> Result<u32, HostRefusal>
    ensures answer { pair_in result ≡ pair_for 120 (view board_lanes floor.old) call }
    ensures after { view board_lanes floor.new ≡ state_for 120 (view board_lanes floor.old) call }
{
    let value = floor.perform_one(call.ok_or(HostRefusal::NoCall)?)?;
    Ok(match value {
        Value::Count(count) => count as u32,
        Value::Bit(bit) => bit as u32,
    })
}

// Performs the first of some calls. The loop counts, for the answers: what is written through `chunks_exact_mut` is unknown
// to the proof. The calls are read by the same count, which is no longer than their threes with an index beside.
fn perform(floor: &mut Floor<Board>, count: usize, calls: &[u32], answers: &mut [u32])
    requires { (3 * count ≤ length calls.now) × (2 * count ≤ length answers.old) }
    ensures { answers.new ≡ answers_over (view board_lanes floor.old) calls.now count answers.old }
{
    for k in 0..count {
        let call = named_call(calls[3 * k], calls[3 * k + 1], calls[3 * k + 2]);
        let (number, value) = in_words(answer(floor, call));
        answers[2 * k] = number;
        answers[2 * k + 1] = value;
    }
}

// Opens a floor on a sheet and performs calls on it.
fn run(
    sheet: &[u32],
    rogues: SiteMask,
    bits: SiteMask,
    calls: &[u32],
    answers: &mut [u32],
) -> Result<(), HostRefusal>
    ensures reply { result ≡ run_reply sheet.now rogues.bits bits.bits }
    ensures answers { answers.new ≡ left_by result (λ _. answers_over (opened (sheet_network sheet.now) rogues.bits bits.bits) calls.now (performed calls.now answers.old) answers.old) answers.old }
{
    let plan = loaded(sheet)?;
    let mut floor = Floor::new(Board::new());
    floor.open(&plan, rogues, bits)?;
    let count = (calls.len() / 3).min(answers.len() / 2);
    perform(&mut floor, count, calls, answers);
    Ok(())
}

/// Opens a floor on a sheet, for some rogues and the bits of the sites, and performs calls in their order, as many as
/// there are whole threes of words and whole pairs of room for their answers. Answers 0, or the number of the refusal
/// of the sheet or of the open; then nothing is performed. A host that keeps its list of calls, appends to it and runs
/// it again gets what one floor would answer, and holds no state that it could break. The guarantee over every list of
/// calls stands before and after each call.
#[unsafe(no_mangle)]
pub extern "C" fn rolgevin_run(
    sheet: &[u32],
    rogues: u32,
    bits: u32,
    calls: &[u32],
    answers: &mut [u32],
) -> u32
    ensures { Replays sheet.now rogues bits calls.now answers.old answers.new result }
{
    let rogues = SiteMask { bits: rogues };
    let bits = SiteMask { bits };
    answered(run(sheet, rogues, bits, calls, answers))
}
