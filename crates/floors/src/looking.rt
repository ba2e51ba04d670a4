ghost use Rattle.std.specs.Prelude.{◌≡◌, ◌<◌, [], if◌then◌else◌, nat_lt};
ghost use Rattle.plans.specs.Plans.{sheet, network};
ghost use Rattle.floors.specs.Views.{record_at, view, plan_sheet};

use crate::floor::Floor;
use airs::Air;
use plans::Plan;
use sites::SiteMask;

impl<A: Air> Floor<A> {
    /// The accepted turns since the floor was opened.
    pub fn turns(&self) -> usize
        ensures { result ≡ (view A.lanes self.now).turns }
    {
        self.turns
    }

    /// The set of the rogues.
    pub fn rogues(&self) -> SiteMask
        ensures { result.bits ≡ (view A.lanes self.now).rogues }
    {
        self.rogues
    }

    /// The plan that the floor was opened on.
    pub fn plan(&self) -> &Plan
        ensures sheet { sheet result.now ≡ plan_sheet self.now }
        ensures network { network result.now ≡ (view A.lanes self.now).net }
    {
        &self.ground.base.plan
    }

    /// The air.
    pub fn air(&self) -> &A
        ensures { A.lanes result.now ≡ (view A.lanes self.now).lanes }
    {
        &self.air
    }

    /// The words of a site's notebook: none for a site of 6 or more.
    pub fn notebook(&self, site: u8) -> &[u32]
        ensures { result.now ≡ (if nat_lt site 6 then (record_at self.now.records site).notebook else []) }
    {
        let record = self.records.sites.get(site as usize);
        record.map_or(&[], |record| record.notebook.words())
    }
}
