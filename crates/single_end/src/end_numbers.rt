ghost use Rattle.std.specs.Prelude.{◌≡◌};
ghost use Rattle.std.specs.Option.{option_map};
ghost use Rattle.single_end.specs.Kept.{weighing_from};
ghost use Rattle.single_end.specs.States.{seen_end};

use crate::end_site::EndSite;
use crate::numbers::Numbers;

impl EndSite {
    // Its numbers in a round. No `From`, since it takes the round beside the end.
    pub(crate) fn numbers(self, round: usize) -> Numbers
        ensures { result ≡ record { site = self.site; bit = self.bit; phase = self.phase; round = round; n = self.n; f = self.f } }
    {
        Numbers {
            site: self.site,
            bit: self.bit,
            phase: self.phase,
            round,
            n: self.n,
            f: self.f,
        }
    }

    // What some numbers tell, whatever their round; nothing where the site is not below n.
    pub(crate) fn of(numbers: Numbers) -> Option<EndSite>
        ensures { option_map seen_end result ≡ weighing_from numbers }
    {
        if numbers.site >= numbers.n {
            return None;
        }
        Some(EndSite {
            site: numbers.site,
            bit: numbers.bit,
            phase: numbers.phase,
            n: numbers.n,
            f: numbers.f,
        })
    }
}
