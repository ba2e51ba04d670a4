ghost use Rattle.std.specs.Prelude.{◌≡◌};
ghost use Rattle.airs.specs.Lanes.{silent, count_of, word_at, put_reply, put_next};

use arrayvec::ArrayVec;
use sites::Refusal;

/// Six lanes side by side, one a site, each of at most `N` words.
#[derive(Drop)]
pub(crate) struct SixLanes<const N: usize> {
    pub(crate) lanes: [ArrayVec<u32, N>; 6],
}

impl<const N: usize> SixLanes<N> {
    ghost use Rattle.airs.specs.SixLanes.{six_lanes};

    /// Six lanes with no words.
    pub(crate) fn new() -> Self
        ensures { six_lanes result ≡ silent }
    {
        SixLanes {
            lanes: Default::default(),
        }
    }

    /// Appends a word to a site's lane and answers the lane's new length, or refuses and leaves all lanes as they are.
    pub(crate) fn put(&mut self, site: u8, word: u32) -> Result<usize, Refusal>
        ensures answer { result ≡ put_reply N (six_lanes self.old) site }
        ensures after { six_lanes self.new ≡ put_next N (six_lanes self.old) site word }
    {
        // No `get_mut`: a proof would not know the other lanes after it.
        if site >= 6 {
            return Err(Refusal::NoSite);
        }
        let lane = &mut self.lanes[site as usize];
        lane.try_push(word).map_err(|_| Refusal::LaneFull)?;
        Ok(lane.len())
    }

    /// How many words a site's lane has: 0 for a site of 6 or more.
    pub(crate) fn count(&self, site: u8) -> usize
        ensures { result ≡ count_of (six_lanes self.now) site }
    {
        self.lanes.get(site as usize).map_or(0, ArrayVec::len)
    }

    /// The word at a position of a site's lane, if there is one.
    pub(crate) fn at(&self, site: u8, position: usize) -> Option<u32>
        ensures { result ≡ word_at (six_lanes self.now) site position }
    {
        self.lanes.get(site as usize)?.get(position).copied()
    }

    /// Empties all lanes.
    pub(crate) fn clear(&mut self)
        ensures { six_lanes self.new ≡ silent }
    {
        for lane in &mut self.lanes {
            lane.clear();
        }
    }
}
