ghost use Rattle.std.specs.Prelude.{◌≡◌, ◌≤◌, true, [], map, length, is_some};
ghost use Rattle.std.specs.Option.{option_map};
ghost use Rattle.sites.specs.Keepers.{keepers as table};
ghost use Rattle.sites.specs.Suspects.{suspects, suspect?, set_at, SuspectsLaw};
ghost use Rattle.words.specs.Layout.{path_field};
ghost use Rattle.words.specs.Words.{meaning, sites_of};
ghost use Rattle.theory.specs.Network.{Lawful};
ghost use Rattle.plans.specs.Plans.{sheet, network, Routes, FansAt};
ghost use Rattle.plans.specs.Taken.{route_taken, fan_taken, fan_words};

use crate::checked::Checked;
use crate::plan::Plan;
use sheets::fans::run_at;
use sheets::parts;
use sites::SiteMask;
use words::{Path, PathWord};

// The path of no sites.
fn no_path() -> Path
    ensures { sites_of result ≡ [] }
{
    Path::new(&[]).unwrap()
}

// The path of a lawful word.
fn path_of(word: u32) -> Path
    requires { is_some (meaning word) ≡ true }
    ensures { sites_of result ≡ path_field word }
{
    PathWord::read(word).unwrap().path()
}

impl Plan {
    // Its sheet, which passed rows 1 to 6.
    fn checked(&self) -> Checked<'_>
        ensures { result.words.now ≡ sheet self.now }
    {
        Checked::new(self.words())
    }

    /// The words of its sheet. The network of every plan is lawful.
    #[tactic(auto, using(crate::proofs::Wholes::plan_lawful))]
    pub fn words(&self) -> &[u32]
        ensures value { result.now ≡ sheet self.now }
        ensures lawful { Lawful (network self.now) }
    {
        &self.words[0..self.len]
    }

    /// How many sites there are: n.
    #[tactic(auto, unfolding(crate::specs::Plans::network))]
    pub fn site_count(&self) -> u8
        ensures value { result ≡ (network self.now).n }
        ensures least { 2 ≤ result }
        ensures most { result ≤ 6 }
    {
        parts::site_count(self.words())
    }

    /// How many of them may be rogue: f.
    #[tactic(auto, unfolding(crate::specs::Plans::network))]
    pub fn rogue_limit(&self) -> u8
        ensures value { result ≡ (network self.now).f }
        ensures most { result ≤ 2 }
    {
        parts::rogue_limit(self.words())
    }

    /// Whether an edge joins two sites; false where one is not below n.
    #[tactic(auto, unfolding(crate::specs::Plans::network))]
    pub fn are_joined(&self, a: u8, b: u8) -> bool
        ensures { result ≡ (network self.now).joined a b }
    {
        let n = self.site_count();
        a < n && b < n && parts::are_joined(self.words(), a, b)
    }

    /// How many suspect sets there are: the sets of at most f of the n sites.
    #[tactic(auto, using(sites::proofs::Suspects::suspects_law), unfolding(crate::specs::Plans::network))]
    pub fn suspect_count(&self) -> usize
        ensures value { result ≡ length (suspects (network self.now).n (network self.now).f) }
        ensures law { SuspectsLaw (network self.now).n (network self.now).f }
    {
        self.checked().size.suspect_count()
    }

    /// The k-th suspect set, by size and then by mask; none past the last.
    #[tactic(auto, unfolding(crate::specs::Plans::network))]
    pub fn suspect(&self, k: usize) -> Option<SiteMask>
        ensures { option_map (λ m. m.bits) result ≡ set_at (network self.now).n (network self.now).f k }
    {
        self.checked().size.suspect(k)
    }

    /// Whether a set is a suspect set.
    #[tactic(auto, unfolding(crate::specs::Plans::network))]
    pub fn is_suspect(&self, set: SiteMask) -> bool
        ensures { result ≡ suspect? (network self.now).n (network self.now).f set.bits }
    {
        self.checked().size.is_suspect(set)
    }

    /// The sites that keep their bits when a phase is weighed, where a set is suspected and the sites of
    /// another set have bit 0.
    #[tactic(auto, unfolding(crate::specs::Plans::network))]
    pub fn keepers(&self, set: SiteMask, zeros: SiteMask) -> SiteMask
        ensures { result.bits ≡ table (network self.now).n (network self.now).f set.bits zeros.bits }
    {
        self.checked().size.keepers(set, zeros)
    }

    /// The place of the route taken between two sites where a set is suspected; none where the set is no
    /// suspect set or these are not two different sites below n.
    pub fn find_route(&self, set: SiteMask, from: u8, to: u8) -> Option<usize>
        ensures { result ≡ route_taken (sheet self.now) set.bits from to }
    {
        let sheet = self.checked();
        let n = sheet.size.sites;
        if !sheet.size.is_suspect(set) || from >= n || to >= n || from == to {
            return None;
        }
        sheet.find_route(set, from, to)
    }

    /// The place of the fan taken at a site where a set is suspected, with its sources among some sites;
    /// none where no fan serves, the set is no suspect set, or a site is not below n.
    pub fn find_fan(&self, set: SiteMask, at: u8, among: SiteMask) -> Option<usize>
        ensures { result ≡ fan_taken (sheet self.now) set.bits at among.bits }
    {
        let sheet = self.checked();
        let n = sheet.size.sites;
        if !sheet.size.is_suspect(set) || at >= n || !among.is_below(n) {
            return None;
        }
        sheet.fans().find(set, at, among)
    }

    /// The path of the route taken between two sites where a set is suspected; the empty path where
    /// `find_route` finds none, which it does not for a suspect set and two different sites below n.
    pub fn route(&self, set: SiteMask, from: u8, to: u8) -> Path
        ensures value { sites_of result ≡ (network self.now).route set.bits from to }
        ensures way { Routes (network self.now) set.bits from to (sites_of result) }
    {
        self.find_route(set, from, to)
            .map_or_else(no_path, |place| path_of(self.words()[place]))
    }

    /// The f + 1 words of the fan taken at a site where a set is suspected, with its sources among some
    /// sites; no words where `find_fan` finds none, which it does not where those sites are the keepers of
    /// a suspect set and the site is not one of them.
    pub fn fan(&self, set: SiteMask, at: u8, among: SiteMask) -> &[u32]
        ensures words { result.now ≡ fan_words (sheet self.now) set.bits at among.bits }
        ensures value { map path_field result.now ≡ (network self.now).fan set.bits at among.bits }
        ensures fan { FansAt (network self.now) set.bits at among.bits (map path_field result.now) }
    {
        self.find_fan(set, at, among)
            .map_or(&[], |place| run_at(self.words(), place))
    }
}
