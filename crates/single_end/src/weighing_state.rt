ghost use Rattle.std.specs.Prelude.{◌≡◌};
ghost use Rattle.std.specs.Option.{option_map};
ghost use Rattle.single_end.specs.Kept.{weighing_numbers, weighing_from};
ghost use Rattle.single_end.specs.States.{seen_weighing};

use crate::end_site::EndSite;
use crate::numbers::Numbers;

/// A single end that has taken all rounds of a phase. Weighing uses it up.
pub struct Weighing {
    pub(crate) end: EndSite,
}

impl Weighing {
    /// The phase, counted from 0.
    pub fn phase(&self) -> usize
        ensures { result ≡ self.now.end.phase }
    {
        self.end.phase
    }

    /// Gives the site up before the last phase is over, and tells the bit that it holds so far.
    pub fn give_up(self) -> bool
        ensures { result ≡ self.end.bit }
    {
        let Weighing { end } = self;
        end.bit
    }

    /// The numbers of the state, which is used up; their round is 0.
    pub fn saved(self) -> Numbers
        ensures { result ≡ weighing_numbers (seen_weighing self) }
    {
        let Weighing { end } = self;
        end.numbers(0)
    }

    /// The state of some numbers, whatever their round; nothing where the site is not below n.
    pub fn restored(numbers: Numbers) -> Option<Weighing>
        ensures { option_map seen_weighing result ≡ weighing_from numbers }
    {
        EndSite::of(numbers).map(|end| Weighing { end })
    }
}
