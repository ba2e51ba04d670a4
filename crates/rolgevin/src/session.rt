// What the console has in hand.
use crate::any_air::{AirKind, AnyAir, AnyFloor};
use crate::command::Command;
use crate::end_commands::End;
use crate::fault::Fault;
use plans::Plan;
use std::fmt::Write;

/// A plan, a floor, an air of the console's own, and a single end.
#[derive(Drop)]
pub(crate) struct Session {
    plan: Plan,
    floor: AnyFloor,
    air: AnyAir,
    end: End,
}

impl Session {
    /// The start, to which `reset` goes back: the built-in plan, a new floor over a board, an
    /// empty board, and no end.
    pub(crate) fn new() -> Session {
        Session {
            plan: Plan::built_in(),
            floor: AnyFloor::new(AirKind::Board),
            air: AnyAir::new(AirKind::Board),
            end: End::new(),
        }
    }

    /// Performs a command and writes the answer.
    pub(crate) fn perform(&mut self, command: Command, reply: &mut String) -> Result<(), Fault> {
        match command {
            Command::Reset => self.reset(reply),
            Command::NewFloor(kind) => self.renew_floor(kind, reply),
            Command::NewAir(kind) => self.renew_air(kind, reply),
            Command::Path(command) => command.perform(reply),
            Command::Sheet(command) => command.perform(&mut self.plan, reply),
            Command::Floor(command) => self.floor.perform(command, &self.plan, reply),
            Command::Air(command) => self.air.perform(command, reply),
            Command::End(command) => self
                .air
                .perform_end(command, &self.plan, &mut self.end, reply),
        }
    }

    // Back to the start.
    fn reset(&mut self, reply: &mut String) -> Result<(), Fault> {
        *self = Session::new();
        write!(reply, "ok  # back at the start")?;
        Ok(())
    }

    // A new floor in place of the one in hand.
    fn renew_floor(&mut self, kind: AirKind, reply: &mut String) -> Result<(), Fault> {
        self.floor = AnyFloor::new(kind);
        write!(
            reply,
            "ok  # a new floor over a {kind}, open on the built-in plan"
        )?;
        Ok(())
    }

    // A fresh air in place of the one in hand.
    fn renew_air(&mut self, kind: AirKind, reply: &mut String) -> Result<(), Fault> {
        self.air = AnyAir::new(kind);
        let count = kind.lane_words();
        write!(reply, "ok  # a fresh {kind}: lanes of {count} words")?;
        Ok(())
    }
}
