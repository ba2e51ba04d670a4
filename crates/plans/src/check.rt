ghost use Rattle.std.specs.Prelude.{◌≡◌, ℕ, ◌^◌, Bool, ◌||◌, is_some, ◌==◌};
ghost use Rattle.sites.specs.Positions.{all_from};
ghost use Rattle.sites.specs.Sets.{in_set};
ghost use Rattle.sheets.specs.Parts.{site_count};
ghost use Rattle.sheets.specs.Refusals.{told};
ghost use Rattle.plans.specs.Complete.{route_place, fan_place, keeping, routed, fanned, first_set, judged};
ghost use Rattle.plans.specs.Examples.{SheetExamples};

use crate::checked::{Checked, Fans};
use sheets::SheetRefusal;
use sites::{Refusal, SiteMask};

// The refusal of a sheet in which a suspect set lacks something: its place is the set as a mask.
fn refused_for(refusal: Refusal, set: SiteMask) -> SheetRefusal
    ensures { result ≡ record { refusal = refusal; place = set.bits } }
{
    SheetRefusal {
        refusal,
        place: set.bits as usize,
    }
}

impl Checked<'_> {
    // Whether there is a route that avoids a set from one site to each other one.
    fn reaches_all(&self, set: SiteMask, from: u8) -> bool
        ensures { result ≡ all_from (λ v. (from == v) || is_some (route_place self.now.words.now set.bits from v)) 0 (site_count self.now.words.now) }
    {
        (0..self.size.sites).all(|to| from == to || self.find_route(set, from, to).is_some())
    }

    // Whether a suspect set has its routes.
    fn is_routed(&self, set: SiteMask) -> bool
        ensures { result ≡ routed self.now.words.now set.bits }
    {
        (0..self.size.sites).all(|from| self.reaches_all(set, from))
    }

    // A row that tests each suspect set: the first that fails is told. A loop: suspect sets are had by their numbers.
    fn each_set<F: Fn(SiteMask) -> bool>(
        &self,
        refusal: Refusal,
        passes: F,
    ) -> Result<(), SheetRefusal>
        requires { F.IsAlwaysCallable passes }
        ensures { (test : ℕ → Bool) → ((set : SiteMask) (r : Bool) → F.post passes set r → r ≡ test set.bits) → result ≡ told refusal (first_set self.now.words.now test) }
    {
        for k in 0..self.size.suspect_count() {
            let set = self.size.suspect(k).unwrap();
            if !passes(set) {
                return Err(refused_for(refusal, set));
            }
        }
        Ok(())
    }
}

impl Fans<'_> {
    // How many sets of sites there are.
    fn set_count(&self) -> u32
        ensures { result ≡ 2 ^ site_count self.now.sheet.words.now }
    {
        1 << self.sheet.size.sites
    }

    // Whether a site has a fan that avoids a set for each Z that puts it into B.
    fn is_fed(&self, set: SiteMask, at: u8) -> bool
        ensures { result ≡ all_from (λ Z. in_set (keeping self.now.sheet.words.now set.bits Z) at || is_some (fan_place self.now.sheet.words.now set.bits at (keeping self.now.sheet.words.now set.bits Z))) 0 (2 ^ site_count self.now.sheet.words.now) }
    {
        (0..self.set_count()).all(|bits| {
            let among = self.sheet.size.keepers(set, SiteMask { bits });
            among.contains(at) || self.find(set, at, among).is_some()
        })
    }

    // Whether a suspect set has its fans.
    fn is_fanned(&self, set: SiteMask) -> bool
        ensures { result ≡ fanned self.now.sheet.words.now set.bits }
    {
        (0..self.sheet.size.sites).all(|at| self.is_fed(set, at))
    }
}

/// Whether a sheet passes all eight rows of the check; if not, the first row that refuses it, and where.
#[tactic(auto, using(crate::proofs::Examples::sheet_examples))]
pub fn judge(words: &[u32]) -> Result<(), SheetRefusal>
    ensures answer { result ≡ judged words.now }
    // what it answers to two sheets and to parts of them
    ensures examples { SheetExamples }
{
    sheets::check(words)?;
    let sheet = Checked::new(words);
    let fans = sheet.fans();
    sheet.each_set(Refusal::NoRoute, |set| sheet.is_routed(set))?;
    sheet.each_set(Refusal::NoFan, |set| fans.is_fanned(set))
}
