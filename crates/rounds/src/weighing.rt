ghost use Rattle.std.specs.Prelude.{◌≡◌, ◌<◌, true, map, is_some, length, drop, if◌then◌else◌, nat_eq};
ghost use Rattle.std.specs.List.{AllByRecursion};
ghost use Rattle.sites.specs.Lists.{front};
ghost use Rattle.sites.specs.Keepers.{keepers as keepers_by};
ghost use Rattle.words.specs.Layout.{path_field};
ghost use Rattle.words.specs.Words.{meaning, sites_of};
ghost use Rattle.theory.specs.Weighing.{zeros as zeros_of, all_are, agreed as agreed_of, weigh as weigh_of};
ghost use Rattle.notebooks.specs.Notebooks.{told_by};
ghost use Rattle.tables.specs.Tables.{table_network};
ghost use Rattle.rounds.specs.Telling.{tells};

use crate::notebook::Notebook;
use crate::phase::{Heard, Phase};
use crate::recalling::front_of;
use sites::{NetworkSize, SiteMask};
use tables::{PathTable, Routing};
use words::{Path, PathWord};

/// The set A of the sites that keep their bits, where a set is suspected and the sites of Z have bit 0; N are the others
/// of the n sites, and B is the other one of Z and N.
///
/// | suspects in Z | further | A |
/// |---|---|---|
/// | at most f / 2 | more than f sites in N | N |
/// | at most f / 2 | at most f sites in N | Z |
/// | more than f / 2 | more than f sites in Z | Z |
/// | more than f / 2 | at most f sites in Z | N |
pub fn keepers<P: Routing>(plan: &P, set: SiteMask, zeros: SiteMask) -> SiteMask
    ensures { result.bits ≡ keepers_by (P.network plan.now).n (P.network plan.now).f set.bits zeros.bits }
{
    let sites = plan.site_count();
    let rogues = plan.rogue_limit();
    NetworkSize { sites, rogues }.keepers(set, zeros)
}

// The words of a fan behind the first one.
fn behind_first(fan: &[u32]) -> &[u32]
    requires { 0 < length fan.now }
    ensures { result.now ≡ drop 1 fan.now }
{
    &fan[1..]
}

impl<'a> Heard<'a> {
    // The bit told of a path without its last site.
    fn told_front(&self, path: &Path) -> bool
        ensures { result ≡ tells self.now (front (sites_of path.now)) }
    {
        self.notebook.told(self.table, &front_of(path))
    }

    // The bit told of the path of a lawful word, without its last site.
    fn bit_along(&self, word: u32) -> bool
        ensures { is_some (meaning word) ≡ true → result ≡ tells self.now (front (path_field word)) }
    {
        // never so in a fan, whose words are lawful; but what `all` calls for each word may not ask for that
        let Ok(path) = PathWord::read(word) else {
            return true;
        };
        self.told_front(&path.path())
    }

    // Whether a bit came along each of some paths.
    fn all_bring(&self, words: &[u32], bit: bool) -> bool
        requires { AllByRecursion (λ w. is_some (meaning w) ≡ true) words.now }
        ensures { result ≡ all_are bit (map (λ w. tells self.now (front (path_field w))) words.now) }
    {
        words.iter().all(|word| self.bit_along(*word) == bit)
    }

    // The common bit of the paths of a fan, or else the one held.
    fn agreed(&self, fan: &[u32], own: bool) -> bool
        requires { AllByRecursion (λ w. is_some (meaning w) ≡ true) fan.now }
        ensures { result ≡ agreed_of own (map (λ w. tells self.now (front (path_field w))) fan.now) }
    {
        let Some(first) = fan.first() else {
            return own;
        };
        let bit = self.bit_along(*first);
        if self.all_bring(behind_first(fan), bit) {
            bit
        } else {
            own
        }
    }
}

impl<'a, P: Routing> Phase<'a, P> {
    // The phase that a site has heard.
    fn of(
        plan: &'a P,
        table: &'a PathTable,
        notebook: &'a Notebook,
        set: SiteMask,
        own: bool,
    ) -> Phase<'a, P>
        ensures plan { result.plan.now ≡ plan.now }
        ensures table { result.heard.table.now ≡ table.now }
        ensures notebook { result.heard.notebook.now ≡ notebook.now }
        ensures set { result.set ≡ set }
        ensures own { result.own ≡ own }
    {
        Phase {
            plan,
            heard: Heard { table, notebook },
            set,
            own,
        }
    }

    // The bit that the site has from a site.
    fn bit_from(&self, from: u8) -> bool
        ensures { result ≡ (if nat_eq from self.now.heard.table.now.site then self.now.own else tells self.now.heard (front ((P.network self.now.plan.now).route self.now.set.bits from self.now.heard.table.now.site))) }
    {
        let site = self.heard.table.site();
        if from == site {
            return self.own;
        }
        self.heard
            .told_front(&self.plan.route(self.set, from, site))
    }

    // Z: the sites from which the site has a 0, by its own bit and by the bits told of the routes taken.
    fn zeros(&self) -> SiteMask
        ensures { result.bits ≡ zeros_of (P.network self.now.plan.now) (tells self.now.heard) self.now.set.bits self.now.own self.now.heard.table.now.site }
    {
        // a loop here and in a wiring's masks: one function for both would be public and ask that a closure may be called
        let mut bits = 0;
        for from in 0..self.plan.site_count() {
            if !self.bit_from(from) {
                bits += 1 << from;
            }
        }
        SiteMask { bits }
    }

    // The bit that the site holds from then on.
    fn weigh(&self) -> bool
        ensures { result ≡ weigh_of (P.network self.now.plan.now) (tells self.now.heard) self.now.set.bits self.now.own self.now.heard.table.now.site }
    {
        let site = self.heard.table.site();
        let among = keepers(self.plan, self.set, self.zeros());
        if among.contains(site) {
            return self.own;
        }
        let fan = self.plan.fan(self.set, site, among);
        self.heard.agreed(fan, self.own)
    }
}

impl Notebook {
    /// Z: the sites from which the table's site has a 0 when a phase is over, by its own bit and by the bits told of the
    /// routes taken.
    pub fn zeros<P: Routing>(
        &self,
        plan: &P,
        table: &PathTable,
        set: SiteMask,
        own: bool,
    ) -> SiteMask
        ensures { result.bits ≡ zeros_of (P.network plan.now) (told_by (table_network table.now) table.now.site self.now.words) set.bits own table.now.site }
    {
        Phase::of(plan, table, self, set, own).zeros()
    }

    /// The bit that the table's site holds from the end of a phase on, where it held `own` and a set was suspected.
    pub fn weigh<P: Routing>(&self, plan: &P, table: &PathTable, set: SiteMask, own: bool) -> bool
        ensures { result ≡ weigh_of (P.network plan.now) (told_by (table_network table.now) table.now.site self.now.words) set.bits own table.now.site }
    {
        Phase::of(plan, table, self, set, own).weigh()
    }
}
