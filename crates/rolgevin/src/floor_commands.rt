// The floor: one agreement from its opening to its decision.
use crate::fault::Fault;
use crate::line::{Line, Site};
use crate::text::{Bid, Lanes, Words, trimmed};
use airs::Air;
use floors::Floor;
use plans::Plan;
use runs::{Call, Value};
use sites::SiteMask;
use std::fmt::Write;

/// A command on the floor.
#[derive(Clone, Copy)]
pub(crate) enum FloorCommand {
    /// `open R B`
    Open { rogues: SiteMask, bits: SiteMask },
    /// `transmit S W`, `recalled S W`, `speak S`, `held S`, `decision S`, `turn`
    Call(Call),
    /// `lanes`
    Lanes,
    /// `notebook S`
    Notebook(Site),
    /// `state`
    State,
}

// The call of a line's name; nothing where there is none of the name.
fn call(line: Line<'_>) -> Result<Option<Call>, Fault> {
    let call = match line.name {
        "transmit" => {
            let (site, word) = line.read("transmit takes a site and a word")?;
            Call::Transmit { site, word }
        }
        "recalled" => {
            let (site, word) = line.read("recalled takes a site and a word")?;
            Call::Recalled { site, word }
        }
        "speak" => {
            let site = line.read("speak takes a site")?;
            Call::Speak { site }
        }
        "held" => {
            let site = line.read("held takes a site")?;
            Call::Held { site }
        }
        "decision" => {
            let site = line.read("decision takes a site")?;
            Call::Decision { site }
        }
        "turn" => {
            line.none("turn takes no arguments")?;
            Call::Turn
        }
        _ => return Ok(None),
    };
    Ok(Some(call))
}

// What the count that a call answers counts.
fn counted(call: Call) -> &'static str {
    match call {
        Call::Transmit { .. } => "words in the lane",
        Call::Turn => "turns since the opening",
        _ => "words put",
    }
}

// Performs one call and writes what it answered. It goes as a list of one through the call that bears the guarantee.
fn perform_call<A: Air>(call: Call, floor: &mut Floor<A>, reply: &mut String) -> Result<(), Fault> {
    let mut answers = [Ok(Value::Count(0))];
    floor.perform(&[call], &mut answers);
    let [answer] = answers;
    match answer? {
        Value::Count(count) => write!(reply, "ok {count}  # {}", counted(call))?,
        Value::Bit(bit) => write!(reply, "ok {}  # {}", u8::from(bit), Bid(bit))?,
    }
    Ok(())
}

// The words of a site's notebook.
fn notebook<A: Air>(site: Site, floor: &Floor<A>, reply: &mut String) -> Result<(), Fault> {
    let words = trimmed(floor.notebook(site.id()));
    let count = words.len();
    let words = Words { mark: ' ', words };
    write!(reply, "ok {count}{words}  # the notebook of site {site}")?;
    Ok(())
}

// The accepted turns, the phase, the round, and whether the last phase is over.
fn state<A: Air>(floor: &Floor<A>, reply: &mut String) -> Result<(), Fault> {
    let (turns, phase, round) = (floor.turns(), floor.phase(), floor.round());
    if floor.is_over() {
        write!(
            reply,
            "ok {turns} {phase} {round} 1  # the last phase is over"
        )?;
    } else {
        write!(
            reply,
            "ok {turns} {phase} {round} 0  # phase {phase}, round {round}"
        )?;
    }
    Ok(())
}

impl FloorCommand {
    /// The command that a line is; nothing where there is none of its name here.
    pub(crate) fn read(line: Line<'_>) -> Result<Option<FloorCommand>, Fault> {
        let command = match line.name {
            "open" => {
                let (rogues, bits) = line.read("open takes a mask of rogues and a mask of bits")?;
                FloorCommand::Open { rogues, bits }
            }
            "lanes" => {
                line.none("lanes takes no arguments")?;
                FloorCommand::Lanes
            }
            "notebook" => FloorCommand::Notebook(line.read("notebook takes a site")?),
            "state" => {
                line.none("state takes no arguments")?;
                FloorCommand::State
            }
            _ => return Ok(call(line)?.map(FloorCommand::Call)),
        };
        Ok(Some(command))
    }

    /// Performs the command on a floor, with the plan in hand, and writes the answer.
    pub(crate) fn perform<A: Air>(
        self,
        plan: &Plan,
        floor: &mut Floor<A>,
        reply: &mut String,
    ) -> Result<(), Fault> {
        match self {
            FloorCommand::Open { rogues, bits } => {
                floor.open(plan, rogues, bits)?;
                write!(
                    reply,
                    "ok  # the floor is open on the plan in hand: phase 0, round 1"
                )?;
                Ok(())
            }
            FloorCommand::Call(call) => perform_call(call, floor, reply),
            FloorCommand::Lanes => {
                let lanes = Lanes(floor.air());
                write!(reply, "ok{lanes}  # the words of each lane of the floor")?;
                Ok(())
            }
            FloorCommand::Notebook(site) => notebook(site, floor, reply),
            FloorCommand::State => state(floor, reply),
        }
    }
}
