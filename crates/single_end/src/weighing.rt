ghost use Rattle.std.specs.Prelude.{◌≡◌};
ghost use Rattle.plans.specs.Plans.{network};
ghost use Rattle.single_end.specs.Ends.{gone_on};
ghost use Rattle.single_end.specs.States.{seen_weighing};
ghost use Rattle.single_end.specs.Calls.{seen_weighed, Weighs};

use crate::done::Done;
use crate::round::Round;
use crate::weighing_state::Weighing;
use plans::Plan;
use rounds::Notebook;
use site_plans::SitePlan;
use sites::Refusal;

/// What weighing a phase leads to.
pub enum Weighed {
    /// Round 1 of the next phase.
    Round(Round),
    /// The last phase was weighed.
    Done(Done),
}

impl Weighing {
    // The state after the phase was weighed, where a run has so many phases and the site now holds a bit.
    fn on(self, phases: usize, bit: bool) -> Weighed
        ensures { seen_weighed result ≡ gone_on phases (seen_weighing self) bit }
    {
        let Weighing { mut end } = self;
        if end.phase < phases.saturating_sub(1) {
            end.bit = bit;
            end.phase += 1;
            return Weighed::Round(Round { end, round: 1 });
        }
        Weighed::Done(Done { bit })
    }

    /// Weighs the phase and gives round 1 of the next or, after the last, the end. Refused with 14 where the plan has
    /// another n or f than at the start: then the state comes back.
    #[tactic(auto, using(crate::proofs::Fit::still_here, crate::proofs::Fit::weighed_is))]
    pub fn weigh(self, plan: &Plan, notebook: &Notebook) -> Result<Weighed, (Refusal, Weighing)>
        ensures { Weighs (network plan.now) (seen_weighing self) notebook.now.words result }
    {
        if !self.end.fits(plan) {
            return Err((Refusal::OtherPlan, self));
        }
        let base = SitePlan { plan: *plan };
        let set = base.suspect(self.end.phase);
        let bit = notebook.weigh(&base, &base.table(self.end.site), set, self.end.bit);
        Ok(self.on(base.phases(), bit))
    }
}
