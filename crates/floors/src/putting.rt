ghost use Rattle.std.specs.Prelude.{◌≡◌};
ghost use Rattle.runs.specs.Replies.{transmit_reply, transmit_next};
ghost use Rattle.floors.specs.Views.{view, plan_sheet};

use crate::floor::Floor;
use airs::Air;
use sites::Refusal;

impl<A: Air> Floor<A> {
    /// Puts a word for a rogue and answers the lane's new length. Refused with 21 for a site not below n, 22 for a sound
    /// site, 24 after the last phase and 25 for a full lane.
    pub fn transmit(&mut self, site: u8, word: u32) -> Result<usize, Refusal>
        ensures answer { result ≡ transmit_reply A.size (view A.lanes self.old) site }
        ensures after { view A.lanes self.new ≡ transmit_next A.size (view A.lanes self.old) site word }
        ensures plan { plan_sheet self.new ≡ plan_sheet self.old }
    {
        if site >= self.site_count() {
            return Err(Refusal::NoSite);
        }
        if !self.rogues.contains(site) {
            return Err(Refusal::SoundSite);
        }
        if self.is_over() {
            return Err(Refusal::Over);
        }
        self.air.put(site, word)
    }
}
