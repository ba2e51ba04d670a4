ghost use Rattle.std.specs.Prelude.{◌≡◌, ◌≤◌, Some, None, MatchResult};
ghost use Rattle.sites.specs.declared.refusal.Refusal.TheVariants.{Path as Unlawful};
ghost use Rattle.words.specs.Kinds.{kind_number, kind_named, suits as doesSuit};

use crate::kind::Kind;
use sites::Refusal;

impl Kind {
    /// The number in the word's highest bits.
    pub fn number(&self) -> u32
        ensures value { result ≡ kind_number self.now }
        ensures bound { result ≤ 11 }
    {
        *self as u32
    }

    /// The kind of a number, if there is one.
    pub fn named(number: u32) -> Option<Kind>
        ensures { result ≡ kind_named number }
    {
        match number {
            1 => Some(Kind::Flood),
            10 => Some(Kind::Route),
            11 => Some(Kind::Fan),
            _ => None,
        }
    }

    /// Whether a word of this kind may have so many sites and such a tail.
    pub fn suits(&self, count: usize, tail: u8) -> bool
        ensures { result ≡ doesSuit self.now count tail }
    {
        match self {
            Kind::Flood => count <= 5 && tail <= 1,
            Kind::Route | Kind::Fan => 2 <= count && count <= 6 && tail == 0,
        }
    }
}

/// The kind of a number; refused with 5 where there is none.
impl TryFrom<u32> for Kind {
    type Error = Refusal;

    ghost try_from_gives = { λ number r. MatchResult r (λ kind. kind_named number ≡ Some kind) (λ e. (kind_named number ≡ None) × (e ≡ Unlawful)) };

    fn try_from(number: u32) -> Result<Kind, Refusal> {
        Kind::named(number).ok_or(Refusal::Path)
    }
}
