// From a line to the command that it is, and to its answer.
use crate::air_commands::AirCommand;
use crate::any_air::AirKind;
use crate::end_commands::EndCommand;
use crate::fault::Fault;
use crate::floor_commands::FloorCommand;
use crate::line::Line;
use crate::path_commands::PathCommand;
use crate::session::Session;
use crate::sheet_commands::SheetCommand;
use std::alloc::{AllocError, Global};
use std::fmt::Write;
use std::str::from_utf8;

/// A command with its arguments.
#[derive(Drop)]
pub(crate) enum Command {
    /// Back to the start.
    Reset,
    /// A new floor over an air of a kind.
    NewFloor(AirKind),
    /// A fresh air of a kind, for the console's own.
    NewAir(AirKind),
    /// A command on path words.
    Path(PathCommand),
    /// A command on sheets and the plan in hand.
    Sheet(SheetCommand),
    /// A command on the floor.
    Floor(FloorCommand),
    /// A command on the console's own air.
    Air(AirCommand),
    /// A command on the single end.
    End(EndCommand),
}

impl Command {
    // The command that a line is.
    // The five groups are read in turn: one `match` on all names would be no plainer, as each arm would name two enums.
    fn read(heap: Global, line: Line<'_>) -> Result<Command, Fault> {
        if let Some(command) = PathCommand::read(heap, line)? {
            return Ok(Command::Path(command));
        }
        if let Some(command) = SheetCommand::read(heap, line)? {
            return Ok(Command::Sheet(command));
        }
        if let Some(command) = FloorCommand::read(line)? {
            return Ok(Command::Floor(command));
        }
        if let Some(command) = AirCommand::read(line)? {
            return Ok(Command::Air(command));
        }
        if let Some(command) = EndCommand::read(line)? {
            return Ok(Command::End(command));
        }
        match line.name {
            "reset" => {
                line.none("reset takes no arguments")?;
                Ok(Command::Reset)
            }
            "air" => Ok(Command::NewFloor(line.read("air takes board or strip")?)),
            "eair" => Ok(Command::NewAir(line.read("eair takes board or strip")?)),
            _ => Err(Fault::NoCommand("no such command")),
        }
    }
}

// Reads a line, performs the command and writes the answer: nothing for a blank line or one that begins with `#`.
fn follow(
    heap: Global,
    session: &mut Session,
    line: &[u8],
    reply: &mut String,
) -> Result<(), Fault> {
    let line = from_utf8(line).map_err(|_| Fault::NoCommand("the line is not UTF-8 text"))?;
    let tokens = line.split_ascii_whitespace().collect::<Vec<&str>>(heap)?;
    match tokens.as_slice() {
        [] => Ok(()),
        [name, ..] if name.starts_with('#') => Ok(()),
        [name, tokens @ ..] => session.perform(Command::read(heap, Line { name, tokens })?, reply),
    }
}

/// The answer to one line. There is an error only where there is no memory for it.
pub(crate) fn answer(
    heap: Global,
    session: &mut Session,
    line: &[u8],
) -> Result<String, AllocError> {
    let mut reply = String::new(heap);
    match follow(heap, session, line, &mut reply) {
        Ok(()) => {}
        Err(Fault::OutOfMemory) => return Err(AllocError),
        Err(fault) => write!(reply, "{fault}")?,
    }
    Ok(reply)
}
