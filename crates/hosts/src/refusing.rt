ghost use Rattle.std.specs.Prelude.{◌≡◌};
ghost use Rattle.hosts.specs.declared.refused.HostRefusal.TheVariants.{NoState, Engine};
ghost use Rattle.hosts.specs.Answered.{host_number, answered as answered_by, site_of};

use crate::refused::HostRefusal;
use sheets::SheetRefusal;
use sites::Refusal;
use std::num::TryFromIntError;

impl From<Refusal> for HostRefusal {
    ghost from_gives = { λ e r. r ≡ Engine e };

    fn from(refusal: Refusal) -> HostRefusal {
        HostRefusal::Engine(refusal)
    }
}

// A number of a state that does not fit.
impl From<TryFromIntError> for HostRefusal {
    ghost from_gives = { λ e r. r ≡ NoState };

    fn from(_: TryFromIntError) -> HostRefusal {
        HostRefusal::NoState
    }
}

// Without the place.
impl From<SheetRefusal> for HostRefusal {
    ghost from_gives = { λ e r. r ≡ Engine e.refusal };

    fn from(refused: SheetRefusal) -> HostRefusal {
        HostRefusal::Engine(refused.refusal)
    }
}

impl HostRefusal {
    // Its number: those of the engine stand in the engine's table.
    pub(crate) fn number(self) -> u32
        ensures { result ≡ host_number self }
    {
        match self {
            HostRefusal::NoCall => 100,
            HostRefusal::TooShort => 101,
            HostRefusal::NoState => 102,
            HostRefusal::Engine(refusal) => refusal.number() as u32,
        }
    }
}

// What a host is answered: 0 where the call was accepted.
pub(crate) fn answered(res: Result<(), HostRefusal>) -> u32
    ensures { result ≡ answered_by res }
{
    match res {
        Ok(()) => 0,
        Err(refusal) => refusal.number(),
    }
}

// The site that a host names by a word. No network has site 255, so it stands for all that are no sites.
pub(crate) fn named_site(word: u32) -> u8
    ensures { result ≡ site_of word }
{
    u8::try_from(word).unwrap_or(255)
}
