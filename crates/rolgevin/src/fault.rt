// Why a line gets another answer than `ok`.
use sheets::SheetRefusal;
use sites::Refusal;
use std::alloc::{AllocError, AllocFailed};
use std::fmt;

/// Why a line is not answered by `ok`. It prints as the answer that the line gets.
#[derive(Clone, Copy)]
pub(crate) enum Fault {
    /// The line is no command, for a reason in plain words.
    NoCommand(&'static str),
    /// The call does not fit the state of the single end.
    NoFit,
    /// The call is refused.
    Refused(Refusal),
    /// A sheet is refused, at a place.
    SheetRefused(SheetRefusal),
    /// There is no memory for what the answer needs.
    OutOfMemory,
}

impl From<Refusal> for Fault {
    fn from(refusal: Refusal) -> Fault {
        Fault::Refused(refusal)
    }
}

impl From<SheetRefusal> for Fault {
    fn from(refusal: SheetRefusal) -> Fault {
        Fault::SheetRefused(refusal)
    }
}

impl From<AllocError> for Fault {
    fn from(_error: AllocError) -> Fault {
        Fault::OutOfMemory
    }
}

impl<T: Drop> From<AllocFailed<T>> for Fault {
    fn from(_error: AllocFailed<T>) -> Fault {
        Fault::OutOfMemory
    }
}

// What the refusal of a sheet means, with its place.
#[derive(Clone, Copy)]
struct Placed(SheetRefusal);

impl fmt::Display for Placed {
    fn fmt<W: fmt::Write>(&self, f: &mut fmt::Formatter<W>) -> fmt::Result {
        let SheetRefusal { refusal, place } = self.0;
        match refusal {
            Refusal::SheetSize => write!(f, "{refusal}"),
            Refusal::NoRoute | Refusal::NoFan => write!(f, "{refusal}, mask {place:X}"),
            _ => write!(f, "word {place}: {refusal}"),
        }
    }
}

impl fmt::Display for Fault {
    fn fmt<W: fmt::Write>(&self, f: &mut fmt::Formatter<W>) -> fmt::Result {
        match *self {
            Fault::NoCommand(why) => write!(f, "error  # {why}"),
            Fault::NoFit => write!(f, "state  # the call does not fit the end's state"),
            Fault::Refused(refusal) => write!(f, "refused {}  # {refusal}", refusal.number()),
            Fault::SheetRefused(fault) => write!(
                f,
                "refused {} {}  # {}",
                fault.refusal.number(),
                fault.place,
                Placed(fault)
            ),
            Fault::OutOfMemory => write!(f, "out of memory"),
        }
    }
}
