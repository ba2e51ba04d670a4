ghost use Rattle.std.specs.Prelude.{◌≡◌, ◌+◌, ◌*◌, ◌^◌, ◌<◌, ◌≤◌, ◌&&◌, Ok, length, take, drop};
ghost use Rattle.sheets.specs.Refusals.{well_formed};
ghost use Rattle.plans.specs.Taken.{route_here};
ghost use Rattle.plans.specs.Complete.{serves_fan, route_place, fan_place};

use crate::checked::{Checked, Fans};
use sheets::fans::first_fan;
use sheets::parts::{avoids, end_of, rogue_limit, site_count, source_of};
use sites::{NetworkSize, SiteMask};
use words::Kind;
use words::fields::kind_of;

// Whether a word is a route between two sites that avoids a set.
#[tactic(auto, unfolding(crate::specs::Taken::route_here))]
fn is_route(word: u32, set: SiteMask, from: u8, to: u8) -> bool
    ensures { result ≡ route_here set.bits from to word }
{
    kind_of(word) == Kind::Route.number()
        && source_of(word) == from
        && end_of(word) == to
        && avoids(set, word)
}

// Whether the paths of a run end at a site, begin in a set and avoid another set.
fn is_serving(run: &[u32], set: SiteMask, at: u8, among: SiteMask) -> bool
    requires { 0 < length run.now }
    ensures { result ≡ serves_fan set.bits at among.bits run.now }
{
    end_of(run[0]) == at
        && run.iter().all(|word| among.contains(source_of(*word)) && avoids(set, *word))
}

impl<'a> Checked<'a> {
    // The words of a sheet that passed rows 1 to 6.
    pub(crate) fn new(words: &'a [u32]) -> Checked<'a>
        requires { well_formed words.now ≡ Ok tt }
        ensures { result.words.now ≡ words.now }
    {
        Checked {
            words,
            size: NetworkSize {
                sites: site_count(words),
                rogues: rogue_limit(words),
            },
        }
    }

    // The place of a word behind the head by its number, from 0 on: they are tried in the order in which they stand.
    fn place(&self, k: usize) -> usize
        requires { k + 1 < length self.now.words.now }
        ensures { result ≡ k + 1 }
    {
        k + 1
    }

    // The place of the first route between two sites that avoids a set.
    pub(crate) fn find_route(&self, set: SiteMask, from: u8, to: u8) -> Option<usize>
        ensures { result ≡ route_place self.now.words.now set.bits from to }
    {
        let later = self.words.len() - 1;
        let k = (0..later).find(|k| is_route(self.words[self.place(*k)], set, from, to))?;
        Some(self.place(k))
    }

    // Its fans.
    pub(crate) fn fans(&self) -> Fans<'a>
        ensures { result.sheet.words.now ≡ self.now.words.now }
    {
        Fans {
            sheet: *self,
            start: first_fan(self.words),
        }
    }
}

impl<'a> Fans<'a> {
    // How many words a fan has.
    fn size(&self) -> usize
        ensures { result ≡ self.now.sheet.size.rogues + 1 }
    {
        usize::from(self.sheet.size.rogues) + 1
    }

    // The place of the fan with a number, from 0 on: they stand one behind the other, and none is passed over.
    fn place(&self, k: usize) -> usize
        requires { self.now.start + k * (self.now.sheet.size.rogues + 1) < 2 ^ 64 }
        ensures { result ≡ self.now.start + k * (self.now.sheet.size.rogues + 1) }
    {
        self.start + k * self.size()
    }

    // Whether the fan with a number ends at a site, begins in a set and avoids another set.
    fn serves(&self, k: usize, set: SiteMask, at: u8, among: SiteMask) -> bool
        requires { self.now.start + k * (self.now.sheet.size.rogues + 1) + (self.now.sheet.size.rogues + 1) ≤ length self.now.sheet.words.now }
        ensures { result ≡ serves_fan set.bits at among.bits (take (self.now.sheet.size.rogues + 1) (drop (self.now.start + k * (self.now.sheet.size.rogues + 1)) self.now.sheet.words.now)) }
    {
        let place = self.place(k);
        is_serving(
            &self.sheet.words[place..place + self.size()],
            set,
            at,
            among,
        )
    }

    // The place of the first fan at a site that begins in a set and avoids another set. Only every (f + 1)-th
    // word is tried.
    #[tactic(auto, using(crate::proofs::Fans::fans_within, crate::proofs::Fans::fan_fits))]
    pub(crate) fn find(&self, set: SiteMask, at: u8, among: SiteMask) -> Option<usize>
        ensures { result ≡ fan_place self.now.sheet.words.now set.bits at among.bits }
    {
        let count = (self.sheet.words.len() - self.start) / self.size();
        let k = (0..count).find(|k| self.serves(*k, set, at, among))?;
        Some(self.place(k))
    }
}
