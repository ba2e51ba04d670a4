#![tactic(auto)]

mod calls;

ghost use Rattle.runs.specs.Examples.{Examples};
ghost use Rattle.runs.specs.Guarantee.{GuaranteeLaw};
ghost use Rattle.runs.specs.Laws.{OneWayLaw, OpenLaw, RefusedLaw, RoomLaw};

pub use calls::{Answer, Call, Value};

/// What holds after every list of calls on a floor just opened: agreement, origin, the count of turns, and the algorithm's run and no other.
pub fn guarantee_holds()
    ensures { GuaranteeLaw }
{}

/// From the least lane size on, a sound site that speaks on an opened floor always finds room for what it owes.
pub fn speech_always_fits()
    ensures { RoomLaw }
{}

/// A refused call leaves all as it was.
pub fn refused_calls_change_nothing()
    ensures { RefusedLaw }
{}

/// An accepted open leaves a floor just opened, with at most f rogues; a refused one leaves all as it was.
pub fn open_takes_a_suspect_set()
    ensures { OpenLaw }
{}

/// Some calls, one after another, are a run, and there is no other run of them.
pub fn calls_fix_the_run()
    ensures { OneWayLaw }
{}

/// Runs on the triangle with a rogue that lies, and on the pair.
pub fn example_runs_come_out()
    ensures { Examples }
{}
