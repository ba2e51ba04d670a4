ghost use Rattle.std.specs.Prelude.{◌≡◌};
ghost use Rattle.airs.specs.Lanes.{kept};
ghost use Rattle.plans.specs.Plans.{network, sheet};
ghost use Rattle.runs.specs.State.{opened};
ghost use Rattle.runs.specs.Replies.{open_reply, open_next};
ghost use Rattle.floors.specs.Views.{view, plan_sheet, built_in};

use crate::floor::Floor;
use crate::ground::Ground;
use crate::record::Records;
use airs::Air;
use plans::Plan;
use sites::{Refusal, SiteMask};

impl<A: Air> Floor<A> {
    /// A new floor over an air: opened on the built-in plan, with no rogues and all bits 0.
    pub fn new(mut air: A) -> Floor<A>
        ensures { view A.lanes result ≡ opened built_in 0 0 }
    {
        air.clear();
        let none = SiteMask { bits: 0 };
        let plan = Plan::built_in();
        Floor {
            ground: Ground::of(&plan),
            rogues: none,
            records: Records::opened(plan.site_count(), none, none),
            turns: 0,
            air,
        }
    }

    // Starts phase 0, round 1.
    fn start(&mut self, plan: &Plan, rogues: SiteMask, bits: SiteMask)
        ensures after { view A.lanes self.new ≡ opened (network plan.now) rogues.bits bits.bits }
        ensures plan { plan_sheet self.new ≡ sheet plan.now }
    {
        self.ground = Ground::of(plan);
        self.rogues = rogues;
        self.records = Records::opened(plan.site_count(), rogues, bits);
        self.turns = 0;
        self.air.clear();
    }

    /// Opens the floor on a copy of a plan, for some rogues and the bits of the sites: the air and the notebooks are
    /// empty, and phase 0 begins. Refused with 11 where a mask names a site not below n, and with 12 for more than f
    /// rogues; then all stays as it was.
    pub fn open(&mut self, plan: &Plan, rogues: SiteMask, bits: SiteMask) -> Result<(), Refusal>
        ensures answer { result ≡ open_reply (network plan.now) rogues.bits bits.bits }
        ensures after { view A.lanes self.new ≡ open_next (network plan.now) rogues.bits bits.bits (view A.lanes self.old) }
        ensures plan { plan_sheet self.new ≡ kept result (sheet plan.now) (plan_sheet self.old) }
    {
        let n = plan.site_count();
        if !rogues.is_below(n) || !bits.is_below(n) {
            return Err(Refusal::MaskSite);
        }
        if rogues.count() > plan.rogue_limit() as u32 {
            return Err(Refusal::ManyRogues);
        }
        self.start(plan, rogues, bits);
        Ok(())
    }
}
