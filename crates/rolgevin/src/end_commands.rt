// The single end: one site on its own, over the console's own air.
use crate::fault::Fault;
use crate::line::Line;
use crate::text::{Bid, Words, trimmed};
use airs::Air;
use plans::Plan;
use rounds::Notebook;
use single_end::{Round, Taken, Weighed, Weighing};
use std::fmt;
use std::fmt::Write;

/// A command on the single end.
#[derive(Clone, Copy)]
pub(crate) enum EndCommand {
    /// `begin S BIT`
    Begin { site: u8, bit: bool },
    /// `espeak`
    Speak,
    /// `etake`
    Take,
    /// `eweigh`
    Weigh,
    /// `ebook`
    Book,
    /// `ebookset I W`
    Set { place: usize, word: u32 },
}

/// Where an end stands, with the state that its next call moves.
enum Stage {
    InRound(Round),
    InWeighing(Weighing),
    Finished(bool),
}

impl Stage {
    // Lets the state go. It is moved by its calls and cannot be dropped, so one of them gives it up.
    fn give_up(self) {
        match self {
            Stage::InRound(round) => {
                let _ = round.give_up();
            }
            Stage::InWeighing(weighing) => {
                let _ = weighing.give_up();
            }
            Stage::Finished(_) => {}
        }
    }
}

impl From<Taken> for Stage {
    fn from(taken: Taken) -> Stage {
        match taken {
            Taken::Round(round) => Stage::InRound(round),
            Taken::Weighing(weighing) => Stage::InWeighing(weighing),
        }
    }
}

impl From<Weighed> for Stage {
    fn from(weighed: Weighed) -> Stage {
        match weighed {
            Weighed::Round(round) => Stage::InRound(round),
            Weighed::Done(done) => Stage::Finished(done.bit()),
        }
    }
}

impl fmt::Display for Stage {
    fn fmt<W: fmt::Write>(&self, f: &mut fmt::Formatter<W>) -> fmt::Result {
        match self {
            Stage::InRound(state) => {
                let (phase, round) = (state.phase(), state.round());
                write!(f, "round {phase} {round}  # phase {phase}, round {round}")
            }
            Stage::InWeighing(state) => {
                let phase = state.phase();
                write!(
                    f,
                    "weighing {phase}  # all rounds are taken of phase {phase}"
                )
            }
            Stage::Finished(bit) => {
                let (number, bid) = (u8::from(*bit), Bid(*bit));
                write!(f, "done {number}  # the last phase is over: {bid}")
            }
        }
    }
}

/// The end in hand, if one is begun, and its notebook.
pub(crate) struct End {
    stage: Option<Stage>,
    notebook: Notebook,
}

impl Drop for End {
    fn drop(self) {
        let End { stage, notebook: _ } = self;
        if let Some(stage) = stage {
            stage.give_up();
        }
    }
}

impl End {
    /// No end, and an empty notebook.
    pub(crate) fn new() -> End {
        End {
            stage: None,
            notebook: Notebook::new(),
        }
    }

    // Puts a stage in place of the one before.
    fn enter(&mut self, stage: Stage) {
        if let Some(before) = self.stage.replace(stage) {
            before.give_up();
        }
    }

    // Goes on to a stage and writes where the end then stands.
    fn go_on(&mut self, stage: Stage, reply: &mut String) -> Result<(), Fault> {
        let written = write!(reply, "ok {stage}");
        self.enter(stage);
        Ok(written?)
    }

    // Stays in a stage where a call failed.
    fn stay(&mut self, stage: Stage, fault: Fault) -> Result<(), Fault> {
        self.enter(stage);
        Err(fault)
    }

    // The end has put all that it owes in this round.
    fn speak<A: Air>(&self, plan: &Plan, air: &mut A, reply: &mut String) -> Result<(), Fault> {
        let Some(Stage::InRound(round)) = &self.stage else {
            return Err(Fault::NoFit);
        };
        let count = round.speak(plan, air, &self.notebook)?;
        write!(reply, "ok {count}  # words put")?;
        Ok(())
    }

    // The end hears its neighbours.
    fn take<A: Air>(&mut self, plan: &Plan, air: &A, reply: &mut String) -> Result<(), Fault> {
        match self.stage.take() {
            Some(Stage::InRound(round)) => match round.take(plan, air, &mut self.notebook) {
                Ok(taken) => self.go_on(Stage::from(taken), reply),
                Err((refusal, round)) => self.stay(Stage::InRound(round), Fault::from(refusal)),
            },
            Some(stage) => self.stay(stage, Fault::NoFit),
            None => Err(Fault::NoFit),
        }
    }

    // The end weighs.
    fn weigh(&mut self, plan: &Plan, reply: &mut String) -> Result<(), Fault> {
        match self.stage.take() {
            Some(Stage::InWeighing(weighing)) => match weighing.weigh(plan, &self.notebook) {
                Ok(weighed) => self.go_on(Stage::from(weighed), reply),
                Err((refusal, weighing)) => {
                    self.stay(Stage::InWeighing(weighing), Fault::from(refusal))
                }
            },
            Some(stage) => self.stay(stage, Fault::NoFit),
            None => Err(Fault::NoFit),
        }
    }

    // The words of the notebook.
    fn book(&self, reply: &mut String) -> Result<(), Fault> {
        let words = trimmed(self.notebook.words());
        let count = words.len();
        let words = Words { mark: ' ', words };
        write!(reply, "ok {count}{words}  # the notebook of the single end")?;
        Ok(())
    }

    // Another word at a place of the notebook.
    fn set(&mut self, place: usize, word: u32, reply: &mut String) -> Result<(), Fault> {
        if !self.notebook.set_word(place, word) {
            return Err(Fault::NoCommand("a notebook has the places 0 to 324"));
        }
        write!(reply, "ok  # the word stands at that place of the notebook")?;
        Ok(())
    }
}

impl EndCommand {
    /// The command that a line is; nothing where there is none of its name here.
    pub(crate) fn read(line: Line<'_>) -> Result<Option<EndCommand>, Fault> {
        let command = match line.name {
            "begin" => {
                let (site, bit) = line.read("begin takes a site and a bit")?;
                EndCommand::Begin { site, bit }
            }
            "espeak" => {
                line.none("espeak takes no arguments")?;
                EndCommand::Speak
            }
            "etake" => {
                line.none("etake takes no arguments")?;
                EndCommand::Take
            }
            "eweigh" => {
                line.none("eweigh takes no arguments")?;
                EndCommand::Weigh
            }
            "ebook" => {
                line.none("ebook takes no arguments")?;
                EndCommand::Book
            }
            "ebookset" => {
                let (place, word) = line.read("ebookset takes a place and a word")?;
                EndCommand::Set { place, word }
            }
            _ => return Ok(None),
        };
        Ok(Some(command))
    }

    /// Performs the command on an end, with the plan in hand and an air, and writes the answer.
    pub(crate) fn perform<A: Air>(
        self,
        plan: &Plan,
        air: &mut A,
        end: &mut End,
        reply: &mut String,
    ) -> Result<(), Fault> {
        match self {
            EndCommand::Begin { site, bit } => {
                let round = Round::begin(plan, site, bit)?;
                end.go_on(Stage::InRound(round), reply)
            }
            EndCommand::Speak => end.speak(plan, air, reply),
            EndCommand::Take => end.take(plan, &*air, reply),
            EndCommand::Weigh => end.weigh(plan, reply),
            EndCommand::Book => end.book(reply),
            EndCommand::Set { place, word } => end.set(place, word, reply),
        }
    }
}
