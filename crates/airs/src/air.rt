ghost use Rattle.std.specs.Prelude.{◌≡◌, ℕ, ◌≤◌, length};
ghost use Rattle.airs.specs.Lanes.{Lanes, silent, count_of, word_at, put_reply, put_next};

use sites::Refusal;

/// What carries words between sites. Its meaning is six lanes, one a site, each the list of the words put there since
/// the last clearing. Code that goes by this trait may rest on nothing but the six lanes and the lane size.
pub trait Air {
    /// How many words a lane can take. Clauses name it `size`, and `lane_size` answers it.
    const LANE_WORDS: usize;

    ghost size: { ℕ };

    ghost lanes: { Self → Lanes };

    /// The lane size, the same for every air of this type.
    // Each air has this body: a provided one would need a law more, which ties the constant to `size`.
    fn lane_size(&self) -> usize
        ensures { result ≡ size };

    /// Appends a word to a site's lane and answers the lane's new length, or refuses and leaves all lanes as they are.
    fn put(&mut self, site: u8, word: u32) -> Result<usize, Refusal>
        ensures answer { result ≡ put_reply size (lanes self.old) site }
        ensures after { lanes self.new ≡ put_next size (lanes self.old) site word };

    /// How many words a site's lane has: 0 for a site of 6 or more.
    fn count(&self, site: u8) -> usize
        ensures { result ≡ count_of (lanes self.now) site };

    /// The word at a position of a site's lane: nothing past its end, and nothing for a site of 6 or more.
    fn at(&self, site: u8, position: usize) -> Option<u32>
        ensures { result ≡ word_at (lanes self.now) site position };

    /// Empties all lanes.
    fn clear(&mut self)
        ensures { lanes self.new ≡ silent };

    ghost wide: { 120 ≤ size };

    ghost six: { (a : Self) → length (lanes a) ≡ 6 };
}
