ghost use Rattle.std.specs.Prelude.{◌≡◌};
ghost use Rattle.plans.specs.Plans.{network};
ghost use Rattle.single_end.specs.Ends.{begin_reply};
ghost use Rattle.single_end.specs.Calls.{begins};
ghost use Rattle.single_end.specs.InStep.{InStepLaw};

use crate::end_site::EndSite;
use crate::round::Round;
use plans::Plan;
use sites::Refusal;

impl Round {
    /// An end for a site with a bit, in round 1 of phase 0. Refused with 21 for a site not below the plan's n. Ends at all
    /// sound sites that are driven in step over one air hold the bits that a floor holds: that is the clause `law`.
    #[tactic(auto, using(crate::proofs::InStep::in_step_law))]
    pub fn begin(plan: &Plan, site: u8, bit: bool) -> Result<Round, Refusal>
        ensures answer { begins result ≡ begin_reply (network plan.now) site bit }
        ensures law { InStepLaw }
    {
        let n = plan.site_count();
        if site >= n {
            return Err(Refusal::NoSite);
        }
        let end = EndSite {
            site,
            bit,
            phase: 0,
            n,
            f: plan.rogue_limit(),
        };
        Ok(Round { end, round: 1 })
    }
}
