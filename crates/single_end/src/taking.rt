ghost use Rattle.std.specs.Prelude.{◌≡◌};
ghost use Rattle.plans.specs.Plans.{network};
ghost use Rattle.airs.specs.Lanes.{lane};
ghost use Rattle.notebooks.specs.Floods.{heard_in};
ghost use Rattle.notebooks.specs.Notebooks.{take_round};
ghost use Rattle.tables.specs.Tables.{table_network};
ghost use Rattle.single_end.specs.Ends.{taken};
ghost use Rattle.single_end.specs.States.{seen_round};
ghost use Rattle.single_end.specs.Calls.{seen_taken, Takes};

use crate::round::Round;
use crate::weighing_state::Weighing;
use airs::Air;
use plans::Plan;
use rounds::Notebook;
use site_plans::SitePlan;
use sites::Refusal;
use tables::PathTable;

/// What taking a round leads to.
pub enum Taken {
    /// The next round of the phase.
    Round(Round),
    /// All rounds of the phase were taken.
    Weighing(Weighing),
}

impl Round {
    // The state after the round was taken.
    fn on(self) -> Taken
        ensures { seen_taken result ≡ taken (seen_round self) }
    {
        let Round { end, round } = self;
        if round < end.n as usize - 1 {
            return Taken::Round(Round {
                end,
                round: round + 1,
            });
        }
        Taken::Weighing(Weighing { end })
    }

    // Hears the neighbours of the table's site.
    fn hear<A: Air>(&self, air: &A, table: &PathTable, notebook: &mut Notebook)
        ensures { notebook.new.words ≡ take_round (table_network table.now) table.now.site self.now.round (heard_in (lane (A.lanes air.now))) notebook.old.words }
    {
        notebook.take_round(air, table, self.round);
    }

    /// Hears the neighbours, the first round of a phase with an empty notebook, and gives the next round or, after round
    /// n - 1, weighing. Refused with 14 where the plan has another n or f than at the start: then the state comes back,
    /// and the notebook stays as it was.
    pub fn take<A: Air>(
        self,
        plan: &Plan,
        air: &A,
        notebook: &mut Notebook,
    ) -> Result<Taken, (Refusal, Round)>
        ensures { Takes (network plan.now) (A.lanes air.now) (seen_round self) notebook.old.words notebook.new.words result }
    {
        if !self.end.fits(plan) {
            return Err((Refusal::OtherPlan, self));
        }
        let base = SitePlan { plan: *plan };
        self.hear(air, &base.table(self.end.site), notebook);
        Ok(self.on())
    }
}
