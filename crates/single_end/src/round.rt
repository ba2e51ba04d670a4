ghost use Rattle.std.specs.Prelude.{◌≡◌};
ghost use Rattle.std.specs.Option.{option_map};
ghost use Rattle.single_end.specs.Kept.{round_numbers, round_from};
ghost use Rattle.single_end.specs.States.{seen_round};

use crate::end_site::EndSite;
use crate::numbers::Numbers;

/// A single end in a round of a phase. Phases are counted from 0, rounds from 1; n and f are those of the plan that it
/// began with. It can speak; taking the round uses it up.
pub struct Round {
    pub(crate) end: EndSite,
    pub(crate) round: usize,
}

impl Round {
    /// The phase, counted from 0.
    pub fn phase(&self) -> usize
        ensures { result ≡ self.now.end.phase }
    {
        self.end.phase
    }

    /// The round of the phase, counted from 1.
    pub fn round(&self) -> usize
        ensures { result ≡ self.now.round }
    {
        self.round
    }

    /// Gives the site up before the last phase is over, and tells the bit that it holds so far.
    pub fn give_up(self) -> bool
        ensures { result ≡ self.end.bit }
    {
        let Round { end, round: _ } = self;
        end.bit
    }

    /// The numbers of the state, which is used up.
    pub fn saved(self) -> Numbers
        ensures { result ≡ round_numbers (seen_round self) }
    {
        let Round { end, round } = self;
        end.numbers(round)
    }

    /// The state of some numbers; nothing where the site is not below n.
    pub fn restored(numbers: Numbers) -> Option<Round>
        ensures { option_map seen_round result ≡ round_from numbers }
    {
        EndSite::of(numbers).map(|end| Round {
            end,
            round: numbers.round,
        })
    }
}
