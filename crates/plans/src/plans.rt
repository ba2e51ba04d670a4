ghost use Rattle.std.specs.Prelude.{◌≡◌, ◌≤◌, length, take};
ghost use Rattle.plans.specs.Examples.{pair};
ghost use Rattle.plans.specs.Plans.{sheet, Loads, Reloads};

use crate::check::judge;
use crate::plan::Plan;
use sheets::SheetRefusal;

// The sheet of the plan that is built in: two sites, none of them rogue.
const PAIR: [u32; 6] = [
    0x8000_0020,
    0x9000_0001,
    0xA408_0000,
    0xA440_0000,
    0xB408_0000,
    0xB440_0000,
];

// Some words in 1,024 places, with zeros past their end. Paths have the like for six sites: one for both would be a public
// function with a `requires`.
fn copied(words: &[u32]) -> [u32; 1024]
    requires { length words.now ≤ 1024 }
    ensures front { take (length words.now) result ≡ words.now }
    ensures long { length result ≡ 1024 }
{
    let len = words.len();
    let mut held = [0u32; 1024];
    held[0..len].copy_from_slice(words);
    held
}

impl Plan {
    /// The plan of a sheet; refused, with the row's number and its place, where the sheet does not pass.
    pub fn load(words: &[u32]) -> Result<Plan, SheetRefusal>
        ensures { Loads words.now result }
    {
        judge(words)?;
        Ok(Plan {
            words: copied(words),
            len: words.len(),
        })
    }

    /// Replaces the plan by that of a sheet; where the sheet is refused, the old plan stands.
    pub fn reload(&mut self, words: &[u32]) -> Result<(), SheetRefusal>
        ensures { Reloads words.now self.old self.new result }
    {
        *self = Plan::load(words)?;
        Ok(())
    }

    /// The plan that is built in: two sites, none of them rogue.
    pub fn built_in() -> Plan
        ensures { sheet result ≡ pair }
    {
        Plan {
            words: copied(&PAIR),
            len: PAIR.len(),
        }
    }
}
