ghost use Rattle.std.specs.Prelude.{◌≡◌, ◌<◌};
ghost use Rattle.floors.specs.Tables.{site_network, Fits};

use crate::ground::Ground;
use plans::Plan;
use site_plans::SitePlan;
use std::array;
use tables::{PathTable, Wiring};

impl Ground {
    // A plan with its tables.
    pub(crate) fn of(plan: &Plan) -> Ground
        ensures { result.base.plan ≡ plan.now }
    {
        let base = SitePlan { plan: *plan };
        let wiring = Wiring::of(&base);
        let tables = array::from_fn(|site| PathTable::of(&wiring, site as u8));
        Ground { base, tables }
    }

    // The table of a site.
    #[tactic(auto, using(site_plans::proofs::Made::base_few))]
    pub(crate) fn table(&self, site: u8) -> &PathTable
        requires { site < (site_network self.now.base).n }
        ensures { Fits (site_network self.now.base) site result.now }
    {
        &self.tables[site as usize]
    }
}
