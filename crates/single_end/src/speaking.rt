ghost use Rattle.std.specs.Prelude.{◌≡◌};
ghost use Rattle.plans.specs.Plans.{network};
ghost use Rattle.notebooks.specs.Notebooks.{owed_by_bits};
ghost use Rattle.tables.specs.Tables.{table_network};
ghost use Rattle.rounds.specs.Speaking.{put_all_reply, put_all_next};
ghost use Rattle.single_end.specs.Ends.{speak_reply, speak_next};
ghost use Rattle.single_end.specs.States.{seen_round};

use crate::round::Round;
use airs::Air;
use plans::Plan;
use rounds::Notebook;
use site_plans::SitePlan;
use sites::Refusal;
use tables::PathTable;

impl Round {
    // Puts all that the table's site owes in this round.
    fn put<A: Air>(
        &self,
        air: &mut A,
        table: &PathTable,
        notebook: &Notebook,
    ) -> Result<usize, Refusal>
        ensures answer { result ≡ put_all_reply A.size (A.lanes air.old) table.now.site (owed_by_bits (table_network table.now) table.now.site self.now.round self.now.end.bit notebook.now.words) }
        ensures after { A.lanes air.new ≡ put_all_next A.size (A.lanes air.old) table.now.site (owed_by_bits (table_network table.now) table.now.site self.now.round self.now.end.bit notebook.now.words) }
    {
        notebook.speak_by_bits(air, table, self.round, self.end.bit)
    }

    /// Puts all that the site owes in this round and answers how many words that are. Refused with 14 where the plan has
    /// another n or f than at the start, and with 25 where the lane cannot take all of them; then none is put.
    pub fn speak<A: Air>(
        &self,
        plan: &Plan,
        air: &mut A,
        notebook: &Notebook,
    ) -> Result<usize, Refusal>
        ensures answer { result ≡ speak_reply A.size (network plan.now) (A.lanes air.old) (seen_round self.now) notebook.now.words }
        ensures after { A.lanes air.new ≡ speak_next A.size (network plan.now) (A.lanes air.old) (seen_round self.now) notebook.now.words }
    {
        if !self.end.fits(plan) {
            return Err(Refusal::OtherPlan);
        }
        let base = SitePlan { plan: *plan };
        self.put(air, &base.table(self.end.site), notebook)
    }
}
