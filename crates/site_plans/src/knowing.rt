ghost use Rattle.std.specs.Prelude.{◌≡◌};
ghost use Rattle.theory.specs.Runs.{phases as phases_of, suspect as suspect_of};
ghost use Rattle.site_plans.specs.Tables.{site_network, Fits};

use crate::site_plan::SitePlan;
use sites::SiteMask;
use tables::{PathTable, Wiring};

impl SitePlan {
    /// The table of the paths along which a site expects a bit. A site not below n expects none.
    pub fn table(&self, site: u8) -> PathTable
        ensures { Fits (site_network self.now) site result }
    {
        PathTable::of(&Wiring::of(self), site)
    }

    /// How many phases a run has.
    pub fn phases(&self) -> usize
        ensures { result ≡ phases_of (site_network self.now) }
    {
        self.plan.suspect_count()
    }

    /// The suspect set of a phase; past the last phase the empty set.
    pub fn suspect(&self, phase: usize) -> SiteMask
        ensures { result.bits ≡ suspect_of (site_network self.now) phase }
    {
        self.plan.suspect(phase).unwrap_or(SiteMask { bits: 0 })
    }
}
