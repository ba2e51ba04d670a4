ghost use Rattle.std.specs.Prelude.{◌≡◌, ℕ, ◌+◌, ◌*◌, ◌^◌, ◌<◌, ◌≤◌, [], ◌∷◌, ◌++◌, length, slice_set};
ghost use Rattle.tables.specs.Steps.{can_go, gone_on, walks, root as root_step};
ghost use Rattle.tables.specs.Drafts.{drafted, Lists};

use crate::draft::Draft;
use crate::expected_path::ExpectedPath;
use crate::site_wiring::SiteWiring;
use crate::step::Step;
use crate::wiring::Wiring;
use sites::SiteMask;

impl<'a> SiteWiring<'a> {
    // The path of no site, which may go on to any site below n but this one.
    fn root(&self) -> Step
        ensures { result ≡ root_step self.now.wiring.now.n self.now.site }
    {
        Step {
            path: ExpectedPath {
                word: 0x1000_0000,
                front: 0x1000_0000,
                last: 0,
            },
            near: SiteMask { bits: 63 },
            free: SiteMask {
                bits: (1 << self.wiring.n) - 1 - (1 << self.site),
            },
            unit: 0x40_0000,
        }
    }
}

impl Step {
    // Whether the path may go on to a site.
    fn can(&self, site: u8) -> bool
        ensures { result ≡ can_go self.now site }
    {
        self.near.contains(site) && self.free.contains(site)
    }

    // The path with one more site.
    fn on(&self, wiring: &Wiring, site: u8) -> Step
        requires { (site < 6) × ((2 ^ site ≤ self.now.free.bits) × (self.now.path.word + 2 ^ 25 + 8 * self.now.unit < 2 ^ 32)) }
        ensures { result ≡ gone_on wiring.now.near self.now site }
    {
        let word = self.path.word + 0x200_0000 + site as u32 * self.unit;
        Step {
            path: ExpectedPath {
                word,
                front: self.path.word,
                last: site,
            },
            near: SiteMask {
                bits: wiring.near[site as usize],
            },
            free: SiteMask {
                bits: self.free.bits - (1 << site),
            },
            unit: self.unit / 8,
        }
    }
}

impl Draft {
    // A draft with no paths.
    pub(crate) fn new() -> Draft
        ensures paths { drafted result ≡ [] }
        ensures ends { result.ends ≡ 0 ∷ 0 ∷ 0 ∷ 0 ∷ 0 ∷ 0 ∷ [] }
        ensures len { result.len ≡ 0 }
    {
        Draft {
            entries: [ExpectedPath::default(); 325],
            len: 0,
            ends: [0; 6],
        }
    }

    // Writes one more path.
    fn push(&mut self, path: ExpectedPath)
        requires { length (drafted self.old) < 325 }
        ensures paths { drafted self.new ≡ drafted self.old ++ path ∷ [] }
        ensures ends { self.new.ends ≡ self.old.ends }
    {
        let at = self.len;
        self.entries[at] = path;
        self.len = at + 1;
    }

    // Writes each path to a neighbour of the site that goes on from a path by so many more sites.
    fn walk(&mut self, here: &SiteWiring, step: Step, left: u8)
        requires { (length (drafted self.old) + length (walks here.now.wiring.now.near here.now.site step left) ≤ 325) × (step.path.word + left * 2 ^ 25 + 8 * step.unit < 2 ^ 32) }
        ensures paths { drafted self.new ≡ drafted self.old ++ walks here.now.wiring.now.near here.now.site step left }
        ensures ends { self.new.ends ≡ self.old.ends }
    {
        if left == 0 {
            if step.near.contains(here.site) {
                self.push(step.path);
            }
            return;
        }
        // a test in the loop: a filtered range is no plainer
        for s in 0..6 {
            if step.can(s) {
                self.walk(here, step.on(here.wiring, s), left - 1);
            }
        }
    }

    // Writes the paths of k sites.
    fn level(&mut self, here: &SiteWiring, k: u8)
        requires { (k < 6) × (length (drafted self.old) + length (walks here.now.wiring.now.near here.now.site (root_step here.now.wiring.now.n here.now.site) k) ≤ 325) }
        ensures paths { drafted self.new ≡ drafted self.old ++ walks here.now.wiring.now.near here.now.site (root_step here.now.wiring.now.n here.now.site) k }
        ensures ends { self.new.ends ≡ slice_set self.old.ends k (length (drafted self.new)) }
    {
        self.walk(here, here.root(), k);
        self.ends[k as usize] = self.len;
    }

    // Writes the paths of one to five sites.
    pub(crate) fn fill(&mut self, here: &SiteWiring)
        requires { Lists here.now.wiring.now.n here.now.wiring.now.near here.now.site 0 self.old }
        ensures { Lists here.now.wiring.now.n here.now.wiring.now.near here.now.site 5 self.new }
    {
        for k in 1..6 {
            self.level(here, k);
        }
    }
}
