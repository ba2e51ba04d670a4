ghost use Rattle.std.specs.Prelude.{◌≡◌, ◌≤◌, min, ◌++◌, length, take, drop};
ghost use Rattle.runs.specs.Runs.{after as left_by, answers as answers_to};
ghost use Rattle.plans.specs.Plans.{network};
ghost use Rattle.floors.specs.Lists.{Performed, OpensAndRuns};
ghost use Rattle.floors.specs.Views.{view, plan_sheet};

use crate::floor::Floor;
use airs::Air;
use plans::Plan;
use runs::{Answer, Call};
use sites::{Refusal, SiteMask};

impl<A: Air> Floor<A> {
    // Performs the first of some calls.
    fn perform_first(&mut self, count: usize, calls: &[Call], answers: &mut [Answer])
        requires { (count ≤ length calls.now) × (count ≤ length answers.old) }
        ensures answers { answers.new ≡ answers_to A.size (view A.lanes self.old) (take count calls.now) ++ drop count answers.old }
        ensures after { view A.lanes self.new ≡ left_by A.size (view A.lanes self.old) (take count calls.now) }
        ensures plan { plan_sheet self.new ≡ plan_sheet self.old }
        ensures guarantee { Performed A.size (view A.lanes self.old) (take count calls.now) (take count answers.new) (view A.lanes self.new) }
    {
        // Answers by their index: what `zip` with `iter_mut` leaves in a slice is not known to a proof.
        for (i, call) in calls[..count].iter().enumerate() {
            answers[i] = self.perform_one(*call);
        }
    }

    /// Performs calls in their order, as many as there is room for their answers, and answers how many. Whatever the
    /// calls, the guarantee over lists of calls holds of them, and of those since the floor was opened with them.
    pub fn perform(&mut self, calls: &[Call], answers: &mut [Answer]) -> usize
        ensures count { result ≡ min (length calls.now) (length answers.old) }
        ensures answers { answers.new ≡ answers_to A.size (view A.lanes self.old) (take result calls.now) ++ drop result answers.old }
        ensures after { view A.lanes self.new ≡ left_by A.size (view A.lanes self.old) (take result calls.now) }
        ensures plan { plan_sheet self.new ≡ plan_sheet self.old }
        ensures guarantee { Performed A.size (view A.lanes self.old) (take result calls.now) (take result answers.new) (view A.lanes self.new) }
    {
        let count = calls.len().min(answers.len());
        self.perform_first(count, calls, answers);
        count
    }

    /// Opens the floor and performs calls in their order, as many as there is room for their answers, and answers how
    /// many. The whole guarantee holds of them: over any plan, any rogues and bits that open takes, any calls and any air.
    /// Refused as open is; then nothing is performed, and all stays as it was.
    pub fn run(
        &mut self,
        plan: &Plan,
        rogues: SiteMask,
        bits: SiteMask,
        calls: &[Call],
        answers: &mut [Answer],
    ) -> Result<usize, Refusal>
        ensures { OpensAndRuns A.size (network plan.now) rogues.bits bits.bits calls.now answers.old answers.new (view A.lanes self.old) (view A.lanes self.new) result }
    {
        self.open(plan, rogues, bits)?;
        Ok(self.perform(calls, answers))
    }
}
