ghost use Rattle.std.specs.Prelude.{◌≡◌, ◌-◌, ◌<◌, ◌≤◌, Ok, OnOk};
ghost use Rattle.runs.specs.State.{over, phase, round};
ghost use Rattle.runs.specs.Replies.{for_sound, held_reply, decision_reply};
ghost use Rattle.floors.specs.Views.{view};

use crate::floor::Floor;
use airs::Air;
use sites::Refusal;

impl<A: Air> Floor<A> {
    // How many sites there are.
    pub(crate) fn site_count(&self) -> u8
        ensures value { result ≡ (view A.lanes self.now).net.n }
        ensures least { 2 ≤ result }
        ensures most { result ≤ 6 }
    {
        self.ground.base.plan.site_count()
    }

    // How many rounds a phase has.
    pub(crate) fn rounds(&self) -> usize
        ensures value { result ≡ (view A.lanes self.now).net.n - 1 }
        ensures least { 1 ≤ result }
        ensures most { result ≤ 5 }
    {
        self.site_count() as usize - 1
    }

    /// Whether the last phase has ended.
    pub fn is_over(&self) -> bool
        ensures { result ≡ over (view A.lanes self.now) }
    {
        self.phase() >= self.ground.base.phases()
    }

    /// The phase, counted from 0, that the next turn is in.
    pub fn phase(&self) -> usize
        ensures { result ≡ phase (view A.lanes self.now) }
    {
        self.turns / self.rounds()
    }

    /// The round of the phase, counted from 1, that the next turn is in.
    pub fn round(&self) -> usize
        ensures { result ≡ round (view A.lanes self.now) }
    {
        self.turns % self.rounds() + 1
    }

    // 21 for a site not below n, 23 for a rogue.
    pub(crate) fn sound(&self, site: u8) -> Result<(), Refusal>
        ensures answer { result ≡ for_sound (view A.lanes self.now) site (Ok tt) }
        ensures six { OnOk result (site < 6) }
    {
        if site >= self.site_count() {
            return Err(Refusal::NoSite);
        }
        if self.rogues.contains(site) {
            return Err(Refusal::RogueSite);
        }
        Ok(())
    }

    /// The bit that a sound site holds: 21 for a site not below n, 23 for a rogue.
    pub fn held(&self, site: u8) -> Result<bool, Refusal>
        ensures { result ≡ held_reply (view A.lanes self.now) site }
    {
        self.sound(site)?;
        Ok(self.records.of(site).bit)
    }

    /// The bit that a sound site holds after the last phase: 21, 23, and 28 before that phase has ended.
    pub fn decision(&self, site: u8) -> Result<bool, Refusal>
        ensures { result ≡ decision_reply (view A.lanes self.now) site }
    {
        let held = self.held(site)?;
        if !self.is_over() {
            return Err(Refusal::Undecided);
        }
        Ok(held)
    }
}
