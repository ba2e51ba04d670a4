ghost use Rattle.std.specs.Prelude.{◌≡◌, ℕ};
ghost use Rattle.airs.specs.Lanes.{silent};
ghost use Rattle.airs.specs.Boards.{board_lanes};
ghost use Rattle.std.proofs.Common.{lit≤, refl};

use super::air::Air;
use super::board::Board;
use super::six_lanes::SixLanes;
use sites::Refusal;

impl Board {
    /// A board with no words.
    pub fn new() -> Board
        ensures { board_lanes result ≡ silent }
    {
        Board {
            lanes: SixLanes::new(),
        }
    }
}

impl Air for Board {
    const LANE_WORDS: usize = 120;

    ghost size = { 120 };

    ghost lanes = { board_lanes };

    ghost wide = { lit≤ tt };

    ghost six = { λ a. refl };

    fn lane_size(&self) -> usize {
        Self::LANE_WORDS
    }

    fn put(&mut self, site: u8, word: u32) -> Result<usize, Refusal> {
        self.lanes.put(site, word)
    }

    fn count(&self, site: u8) -> usize {
        self.lanes.count(site)
    }

    fn at(&self, site: u8, position: usize) -> Option<u32> {
        self.lanes.at(site, position)
    }

    fn clear(&mut self) {
        self.lanes.clear();
    }
}
