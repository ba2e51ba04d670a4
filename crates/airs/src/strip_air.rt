ghost use Rattle.std.specs.Prelude.{◌≡◌, ℕ, ◌<◌, [], ◌∷◌, ◌++◌, Some};
ghost use Rattle.airs.specs.Lanes.{silent, added, kept, count_of, word_at, put_reply, put_next};
ghost use Rattle.airs.specs.Runs.{Sited, pair_of};
ghost use Rattle.airs.specs.Strips.{strip_run, strip_lanes};
ghost use Rattle.std.proofs.Common.{lit≤, refl};

use super::air::Air;
use super::entry::Entry;
use super::strip::Strip;
use sites::Refusal;

impl Strip {
    /// A strip with no words.
    pub fn new() -> Strip
        ensures run { strip_run result ≡ [] }
        ensures lanes { strip_lanes result ≡ silent }
    {
        Strip {
            run: [Entry {
                site_word: 0,
                word: 0,
            }; 960],
            len: 0,
            places: [[0; 160]; 6],
            counts: [0; 6],
        }
    }

    /// The run: the pairs in the order in which the words were put. Each site word names a site below 6.
    pub fn pairs(&self) -> &[Entry]
        ensures run { result.now ≡ strip_run self.now }
        ensures sited { Sited (strip_run self.now) }
    {
        &self.run[0..self.len]
    }

    /// The pair of a site and the word that it puts.
    fn pair(site: u8, word: u32) -> Entry
        ensures { result ≡ pair_of site word }
    {
        Entry {
            site_word: 0xC000_0000 + site as u32,
            word,
        }
    }

    /// Puts a pair at the end of the run, and notes its place, for a site whose lane is not full.
    fn append(&mut self, site: u8, word: u32)
        requires { (site < 6) × (count_of (strip_lanes self.old) site < 160) }
        ensures run { strip_run self.new ≡ strip_run self.old ++ pair_of site word ∷ [] }
        ensures lanes { strip_lanes self.new ≡ added (strip_lanes self.old) site (word ∷ []) }
    {
        let lane = site as usize;
        let count = self.counts[lane];
        let place = self.len;
        self.run[place] = Strip::pair(site, word);
        self.places[lane][count] = place as u16;
        self.counts[lane] = count + 1;
        self.len = place + 1;
    }

    /// The word at a position before a lane's end.
    fn word(&self, site: u8, position: usize) -> u32
        requires { position < count_of (strip_lanes self.now) site }
        ensures { word_at (strip_lanes self.now) site position ≡ Some result }
    {
        let place = self.places[site as usize][position];
        self.run[place as usize].word
    }
}

impl Air for Strip {
    const LANE_WORDS: usize = 160;

    ghost size = { 160 };

    ghost lanes = { strip_lanes };

    ghost wide = { lit≤ tt };

    ghost six = { λ a. refl };

    fn lane_size(&self) -> usize {
        Self::LANE_WORDS
    }

    /// As every air does; and an accepted word is one pair more, at the end of the run.
    fn put(&mut self, site: u8, word: u32) -> Result<usize, Refusal>
        ensures answer { result ≡ put_reply 160 (strip_lanes self.old) site }
        ensures after { strip_lanes self.new ≡ put_next 160 (strip_lanes self.old) site word }
        ensures run { strip_run self.new ≡ kept result (strip_run self.old ++ pair_of site word ∷ []) (strip_run self.old) }
    {
        if site >= 6 {
            return Err(Refusal::NoSite);
        }
        let count = self.count(site);
        if count >= Self::LANE_WORDS {
            return Err(Refusal::LaneFull);
        }
        self.append(site, word);
        Ok(count + 1)
    }

    fn count(&self, site: u8) -> usize {
        if site >= 6 {
            return 0;
        }
        self.counts[site as usize]
    }

    fn at(&self, site: u8, position: usize) -> Option<u32> {
        if position < self.count(site) {
            Some(self.word(site, position))
        } else {
            None
        }
    }

    /// As every air does; and the run then has no pair.
    fn clear(&mut self)
        ensures lanes { strip_lanes self.new ≡ silent }
        ensures run { strip_run self.new ≡ [] }
    {
        self.len = 0;
        self.counts = [0; 6];
    }
}
