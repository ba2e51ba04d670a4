ghost use Rattle.std.specs.Prelude.{◌≡◌};
ghost use Rattle.notebooks.specs.Floods.{flood_in};
ghost use Rattle.runs.specs.State.{rounds_noted};
ghost use Rattle.runs.specs.Replies.{recalled_reply};
ghost use Rattle.floors.specs.Views.{asks_reply, view};

use crate::floor::Floor;
use airs::Air;
use sites::Refusal;

impl<A: Air> Floor<A> {
    // How many rounds of a phase the notebooks are about.
    fn rounds_heard(&self) -> usize
        ensures { result ≡ rounds_noted (view A.lanes self.now).net (view A.lanes self.now).turns }
    {
        if self.turns == 0 {
            return 0;
        }
        (self.turns - 1) % self.rounds() + 1
    }

    // 5 for a word that asks for no path: any notebook refuses it. A `match`, since of its refusals only this one is passed
    // on; the test alone would be one more public function of `rounds`, for this one caller.
    #[tactic(auto, using(site_plans::proofs::Made::base_some))]
    fn asks(&self, word: u32) -> Result<(), Refusal>
        ensures { result ≡ asks_reply (flood_in word) }
    {
        let book = &self.records.of(0).notebook;
        match book.recalled(self.ground.table(0), word, 0) {
            Err(Refusal::Path) => Err(Refusal::Path),
            _ => Ok(()),
        }
    }

    /// The bit in a sound site's notebook for a path, given as its flood word with bit 0. Refused with 5 where the word is
    /// not a lawful one of that kind and bit, with 21 for a site not below n, 23 for a rogue, and 29 where the path is not
    /// expected there, or not yet heard.
    pub fn recalled(&self, site: u8, word: u32) -> Result<bool, Refusal>
        ensures { result ≡ recalled_reply (view A.lanes self.now) site word }
    {
        self.asks(word)?;
        self.sound(site)?;
        let book = &self.records.of(site).notebook;
        book.recalled(self.ground.table(site), word, self.rounds_heard())
    }
}
