ghost use Rattle.std.specs.Prelude.{◌≡◌, ◌<◌, map, slice_set};
ghost use Rattle.airs.specs.Lanes.{kept};
ghost use Rattle.runs.specs.Replies.{as_spoken, speak_reply, speak_next};
ghost use Rattle.rounds.specs.Speaking.{put_all_reply, put_all_next};
ghost use Rattle.floors.specs.Views.{seen, record_at, owed_by, view, plan_sheet};

use crate::floor::Floor;
use crate::record::{Records, SiteRecord};
use airs::Air;
use sites::Refusal;
use tables::PathTable;

impl SiteRecord {
    // Puts all that the table's site owes in a round, or nothing where the lane cannot take it.
    fn speak<A: Air>(
        &mut self,
        air: &mut A,
        table: &PathTable,
        round: usize,
    ) -> Result<usize, Refusal>
        ensures answer { result ≡ put_all_reply A.size (A.lanes air.old) table.now.site (owed_by table.now round (seen self.old)) }
        ensures lanes { A.lanes air.new ≡ put_all_next A.size (A.lanes air.old) table.now.site (owed_by table.now round (seen self.old)) }
        ensures record { seen self.new ≡ kept result (as_spoken (seen self.old)) (seen self.old) }
    {
        let count = self.notebook.speak(air, table, round, self.bit)?;
        self.spoken = true;
        Ok(count)
    }
}

impl Records {
    // Lets a site speak. Apart from `Floor::speak`, so that what becomes of the six records is told without the refusals.
    fn speak<A: Air>(
        &mut self,
        air: &mut A,
        table: &PathTable,
        site: u8,
        round: usize,
    ) -> Result<usize, Refusal>
        requires { site < 6 }
        ensures answer { result ≡ put_all_reply A.size (A.lanes air.old) table.now.site (owed_by table.now round (record_at self.old site)) }
        ensures lanes { A.lanes air.new ≡ put_all_next A.size (A.lanes air.old) table.now.site (owed_by table.now round (record_at self.old site)) }
        ensures records { map seen self.new.sites ≡ kept result (slice_set (map seen self.old.sites) site (as_spoken (record_at self.old site))) (map seen self.old.sites) }
    {
        self.sites[site as usize].speak(air, table, round)
    }
}

impl<A: Air> Floor<A> {
    /// Puts all that a sound site owes in this round and answers how many words. Refused with 21 for a site not below n,
    /// 23 for a rogue, 24 after the last phase, 26 where the site has spoken in this round, and 25 where the lane cannot
    /// take all of them, which does not come about on a floor that was opened and only called.
    pub fn speak(&mut self, site: u8) -> Result<usize, Refusal>
        ensures answer { result ≡ speak_reply A.size (view A.lanes self.old) site }
        ensures after { view A.lanes self.new ≡ speak_next A.size (view A.lanes self.old) site }
        ensures plan { plan_sheet self.new ≡ plan_sheet self.old }
    {
        self.sound(site)?;
        if self.is_over() {
            return Err(Refusal::Over);
        }
        if self.records.of(site).spoken {
            return Err(Refusal::Spoken);
        }
        // the answer's definition asks for room even where nothing is owed, for lanes beyond their size too
        if self.air.count(site) > self.air.lane_size() {
            return Err(Refusal::LaneFull);
        }
        let round = self.round();
        self.records
            .speak(&mut self.air, self.ground.table(site), site, round)
    }
}
