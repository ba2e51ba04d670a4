ghost use Rattle.std.specs.Prelude.{◌≡◌, ◌≤◌, cond, ◌||◌, map};
ghost use Rattle.std.specs.List.{range_with_len};
ghost use Rattle.sites.specs.Positions.{all_from};
ghost use Rattle.sites.specs.Sets.{in_set};
ghost use Rattle.runs.specs.Replies.{turned_site, turn_reply, turn_next};
ghost use Rattle.floors.specs.Tables.{site_network};
ghost use Rattle.floors.specs.Turns.{noted_by, weighed_by, turned_by};
ghost use Rattle.floors.specs.Views.{seen, record_at, sound_of, state_of, view, plan_sheet};

use crate::floor::Floor;
use crate::ground::Ground;
use crate::record::{Records, SiteRecord};
use crate::records::is_sound;
use airs::Air;
use site_plans::SitePlan;
use sites::{Refusal, SiteMask};
use tables::PathTable;

impl SiteRecord {
    // Hears a round, which the first round of a phase does with an empty notebook.
    fn hear<A: Air>(&mut self, air: &A, table: &PathTable, round: usize)
        ensures { seen self.new ≡ noted_by table.now (A.lanes air.now) round (seen self.old) }
    {
        self.notebook.take_round(air, table, round);
        self.spoken = false;
    }

    // Takes the bit that the site holds when a phase is over.
    fn weigh(&mut self, plan: &SitePlan, table: &PathTable, set: SiteMask)
        ensures { seen self.new ≡ weighed_by (site_network plan.now) table.now set.bits (seen self.old) }
    {
        self.bit = self.notebook.weigh(plan, table, set, self.bit);
    }

    // A sound site hears the round that some turns came before, and weighs where it is the last of its phase.
    fn turn<A: Air>(&mut self, air: &A, ground: &Ground, rogues: SiteMask, site: u8, turns: usize)
        ensures { seen self.new ≡ cond (sound_of (site_network ground.now.base).n rogues.bits site) (turned_by (site_network ground.now.base) (A.lanes air.now) turns site (seen self.old)) (seen self.old) }
    {
        let n = ground.base.plan.site_count();
        if !is_sound(n, rogues, site) {
            return;
        }
        // Counted here, not by `Floor::rounds` and `phase`: the floor's records are lent out for writing meanwhile.
        let rounds = n as usize - 1;
        let round = turns % rounds + 1;
        let table = ground.table(site);
        self.hear(air, table, round);
        if round == rounds {
            self.weigh(&ground.base, table, ground.base.suspect(turns / rounds));
        }
    }
}

impl Records {
    // Lets all sound sites hear the round that some turns came before.
    fn turn<A: Air>(&mut self, air: &A, ground: &Ground, rogues: SiteMask, turns: usize)
        ensures { map seen self.new.sites ≡ map (turned_site (state_of ground.now.base rogues.bits self.old (A.lanes air.now) turns)) (range_with_len 0 6) }
    {
        for (site, record) in self.sites.iter_mut().enumerate() {
            record.turn(air, ground, rogues, site as u8, turns);
        }
    }

    // Whether each site below n has spoken or is a rogue.
    fn all_spoke(&self, n: u8, rogues: SiteMask) -> bool
        requires { n ≤ 6 }
        ensures { result ≡ all_from (λ s. in_set rogues.bits s || (record_at self.now s).spoken) 0 n }
    {
        (0..n).all(|site| rogues.contains(site) || self.of(site).spoken)
    }
}

impl<A: Air> Floor<A> {
    /// Lets all sound sites hear, weighs where the phase is over, clears the air, and answers the accepted turns since
    /// the floor was opened, with this one. Refused with 24 after the last phase, and with 27 where a sound site has not
    /// spoken.
    pub fn turn(&mut self) -> Result<usize, Refusal>
        ensures answer { result ≡ turn_reply (view A.lanes self.old) }
        ensures after { view A.lanes self.new ≡ turn_next (view A.lanes self.old) }
        ensures plan { plan_sheet self.new ≡ plan_sheet self.old }
    {
        if self.is_over() {
            return Err(Refusal::Over);
        }
        if !self.records.all_spoke(self.site_count(), self.rogues) {
            return Err(Refusal::Unspoken);
        }
        self.records
            .turn(&self.air, &self.ground, self.rogues, self.turns);
        self.air.clear();
        self.turns += 1;
        Ok(self.turns)
    }
}
