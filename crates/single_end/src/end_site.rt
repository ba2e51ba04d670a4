ghost use Rattle.std.specs.Prelude.{◌≡◌, ◌<◌};
ghost use Rattle.plans.specs.Plans.{network};
ghost use Rattle.single_end.specs.Ends.{same_size};

use plans::Plan;

// What an end keeps in a round and in weighing: its site and bit, the phase, and the n and f of the plan that it began
// with. It can be copied; the states that hold it cannot.
// n and f are no `NetworkSize`: numbers that a host gives back may be any, and that type holds what its plan has checked.
#[derive(Clone, Copy)]
pub(crate) struct EndSite {
    pub(crate) site: u8,
    pub(crate) bit: bool,
    pub(crate) phase: usize,
    pub(crate) n: u8,
    pub(crate) f: u8,
    ghost here: { site < n },
}

impl EndSite {
    // Whether a plan has the n and f that the end began with. The plan's table is made by the calls themselves: a method
    // that gave plan and table copied both once more.
    pub(crate) fn fits(&self, plan: &Plan) -> bool
        ensures { result ≡ same_size (network plan.now) self.now.n self.now.f }
    {
        plan.site_count() == self.n && plan.rogue_limit() == self.f
    }
}
