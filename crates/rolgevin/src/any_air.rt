// An air of one kind or the other, and a floor over one.
use crate::air_commands::AirCommand;
use crate::end_commands::{End, EndCommand};
use crate::fault::Fault;
use crate::floor_commands::FloorCommand;
use crate::line::Argument;
use airs::{Air, Board, Strip};
use floors::Floor;
use plans::Plan;
use std::fmt;

/// The two kinds of air.
#[derive(Clone, Copy)]
pub(crate) enum AirKind {
    Board,
    Strip,
}

impl Argument for AirKind {
    fn read(token: &str) -> Option<AirKind> {
        match token {
            "board" => Some(AirKind::Board),
            "strip" => Some(AirKind::Strip),
            _ => None,
        }
    }
}

impl fmt::Display for AirKind {
    fn fmt<W: fmt::Write>(&self, f: &mut fmt::Formatter<W>) -> fmt::Result {
        match self {
            AirKind::Board => write!(f, "board"),
            AirKind::Strip => write!(f, "strip"),
        }
    }
}

impl AirKind {
    /// How many words a lane of such an air has room for.
    pub(crate) fn lane_words(self) -> usize {
        match self {
            AirKind::Board => Board::LANE_WORDS,
            AirKind::Strip => Strip::LANE_WORDS,
        }
    }
}

/// An air of one kind or the other. `Air` has a constant, so no `dyn Air` can stand for both.
#[derive(Drop)]
pub(crate) enum AnyAir {
    Board(Board),
    Strip(Strip),
}

impl AnyAir {
    /// An empty air of a kind.
    pub(crate) fn new(kind: AirKind) -> AnyAir {
        match kind {
            AirKind::Board => AnyAir::Board(Board::new()),
            AirKind::Strip => AnyAir::Strip(Strip::new()),
        }
    }

    /// Performs a command on the air.
    pub(crate) fn perform(&mut self, command: AirCommand, reply: &mut String) -> Result<(), Fault> {
        match self {
            AnyAir::Board(board) => command.perform(board, reply),
            AnyAir::Strip(strip) => command.perform(strip, reply),
        }
    }

    /// Performs a command on an end over the air.
    pub(crate) fn perform_end(
        &mut self,
        command: EndCommand,
        plan: &Plan,
        end: &mut End,
        reply: &mut String,
    ) -> Result<(), Fault> {
        match self {
            AnyAir::Board(board) => command.perform(plan, board, end, reply),
            AnyAir::Strip(strip) => command.perform(plan, strip, end, reply),
        }
    }
}

/// A floor over an air of one kind or the other: two types, since a floor is generic over its air.
#[derive(Drop)]
pub(crate) enum AnyFloor {
    Board(Floor<Board>),
    Strip(Floor<Strip>),
}

impl AnyFloor {
    /// A new floor over an empty air of a kind.
    pub(crate) fn new(kind: AirKind) -> AnyFloor {
        match kind {
            AirKind::Board => AnyFloor::Board(Floor::new(Board::new())),
            AirKind::Strip => AnyFloor::Strip(Floor::new(Strip::new())),
        }
    }

    /// Performs a command on the floor.
    pub(crate) fn perform(
        &mut self,
        command: FloorCommand,
        plan: &Plan,
        reply: &mut String,
    ) -> Result<(), Fault> {
        match self {
            AnyFloor::Board(floor) => command.perform(plan, floor, reply),
            AnyFloor::Strip(floor) => command.perform(plan, floor, reply),
        }
    }
}
