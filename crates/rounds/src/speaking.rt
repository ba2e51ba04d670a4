ghost use Rattle.std.specs.Prelude.{◌≡◌, ℕ, ◌+◌, ◌-◌, ◌^◌, ◌<◌, ◌≤◌, List, length, if◌then◌else◌};
ghost use Rattle.airs.specs.Lanes.{count_of, added};
ghost use Rattle.notebooks.specs.Notebooks.{first_place, round_words, owed_words, owed_by_bits};
ghost use Rattle.tables.specs.Tables.{table_network, table_level, table_paths};
ghost use Rattle.rounds.specs.Speaking.{Gives, owed_of, put_all_reply, put_all_next};

use crate::notebook::Notebook;
use airs::Air;
use sites::Refusal;
use std::ops::Range;
use tables::PathTable;

// Puts the words for some places in a lane that has room for all of them.
fn put_each<A: Air, F: Fn(usize) -> u32>(air: &mut A, site: u8, places: Range<usize>, word: F)
    requires room { (site < 6) × (places.end - places.start ≤ A.size - count_of (A.lanes air.old) site) }
    requires callable { (k : ℕ) → places.start ≤ k → k < places.end → F.pre word k }
    ensures { (ws : List ℕ) → length ws ≡ places.end - places.start → Gives (F.post word) places.start ws → A.lanes air.new ≡ added (A.lanes air.old) site ws }
{
    // by its ends: a loop over the range as it is tells a proof its numbers only by the steps of an iterator
    for place in places.start..places.end {
        let _ = air.put(site, word(place));
    }
}

// Puts the words for some places or, where the lane has no room for all of them, none.
fn put_all<A: Air, F: Fn(usize) -> u32>(
    air: &mut A,
    site: u8,
    places: Range<usize>,
    word: F,
) -> Result<usize, Refusal>
    requires { (k : ℕ) → places.start ≤ k → k < places.end → F.pre word k }
    ensures answer { (ws : List ℕ) → length ws ≡ places.end - places.start → result ≡ put_all_reply A.size (A.lanes air.old) site ws }
    ensures after { (ws : List ℕ) → length ws ≡ places.end - places.start → Gives (F.post word) places.start ws → A.lanes air.new ≡ put_all_next A.size (A.lanes air.old) site ws }
{
    if site >= 6 {
        return Err(Refusal::NoSite);
    }
    let count = places.end.saturating_sub(places.start);
    if count > air.lane_size().saturating_sub(air.count(site)) {
        return Err(Refusal::LaneFull);
    }
    put_each(air, site, places, word);
    Ok(count)
}

// The place in a notebook of the first path of so many sites.
pub(crate) fn first_of_round(table: &PathTable, round: usize) -> usize
    ensures value { result ≡ first_place (table_network table.now) table.now.site round }
    ensures most { result ≤ 325 }
{
    table.count(round.saturating_sub(1))
}

// The flood word of the empty path with a bit.
fn opening_word(bit: bool) -> u32
    ensures { result ≡ (if bit then 0x10000001 else 0x10000000) }
{
    with_bit(0x1000_0000, bit)
}

// Puts what the table's site owes in a round: in round 1 the empty path with the bit held, later the words for the
// paths of one site less than the round's number, each given by its place.
fn put_owed<A: Air, F: Fn(usize) -> u32>(
    air: &mut A,
    table: &PathTable,
    round: usize,
    bit: bool,
    word: F,
) -> Result<usize, Refusal>
    requires { (k : ℕ) → k < length (table_paths table.now (round - 1)) → F.pre word k }
    ensures answer { (ws : List ℕ) → length ws ≡ length (table_level table.now (round - 1)) → result ≡ put_all_reply A.size (A.lanes air.old) table.now.site (owed_of round bit ws) }
    ensures after { (ws : List ℕ) → length ws ≡ length (table_level table.now (round - 1)) → Gives (F.post word) (first_place (table_network table.now) table.now.site (round - 1)) ws → A.lanes air.new ≡ put_all_next A.size (A.lanes air.old) table.now.site (owed_of round bit ws) }
{
    if round == 1 {
        return put_all(air, table.site(), 0..1, |_| opening_word(bit));
    }
    let k = round.saturating_sub(1);
    put_all(
        air,
        table.site(),
        first_of_round(table, k)..table.count(k),
        word,
    )
}

// A flood word with a bit, given with bit 0.
pub(crate) fn with_bit(word: u32, bit: bool) -> u32
    requires { word < 2 ^ 32 - 1 }
    ensures { result ≡ (if bit then word + 1 else word) }
{
    word + u32::from(bit)
}

impl Notebook {
    /// The words noted for the paths of k sites.
    pub fn round_words(&self, table: &PathTable, k: usize) -> &[u32]
        ensures { result.now ≡ round_words (table_network table.now) table.now.site k self.now.words }
    {
        &self.words[first_of_round(table, k)..table.count(k)]
    }

    /// Puts all that the table's site owes in a round, counted from 1, and answers how many words that are: in round 1
    /// the empty path with the bit held, later the words noted for the paths of one site less than the round's number.
    /// Refused with 21 for a site of 6 or more, and with 25 where the lane cannot take all of them; then none is put.
    pub fn speak<A: Air>(
        &self,
        air: &mut A,
        table: &PathTable,
        round: usize,
        bit: bool,
    ) -> Result<usize, Refusal>
        ensures answer { result ≡ put_all_reply A.size (A.lanes air.old) table.now.site (owed_words (table_network table.now) table.now.site round bit self.now.words) }
        ensures after { A.lanes air.new ≡ put_all_next A.size (A.lanes air.old) table.now.site (owed_words (table_network table.now) table.now.site round bit self.now.words) }
    {
        put_owed(air, table, round, bit, |place| self.words[place])
    }

    /// As `speak`, by the bits noted alone: in round 1 the empty path with the bit held, later a word for each path of one
    /// site less than the round's number, with the bit noted for it. No more of a word in the notebook counts. Refused
    /// with 21 for a site of 6 or more, and with 25 where the lane cannot take all of them; then none is put.
    pub fn speak_by_bits<A: Air>(
        &self,
        air: &mut A,
        table: &PathTable,
        round: usize,
        bit: bool,
    ) -> Result<usize, Refusal>
        ensures answer { result ≡ put_all_reply A.size (A.lanes air.old) table.now.site (owed_by_bits (table_network table.now) table.now.site round bit self.now.words) }
        ensures after { A.lanes air.new ≡ put_all_next A.size (A.lanes air.old) table.now.site (owed_by_bits (table_network table.now) table.now.site round bit self.now.words) }
    {
        let paths = table.up_to(round.saturating_sub(1));
        put_owed(air, table, round, bit, |place| {
            with_bit(paths[place].word, self.bit_at(place))
        })
    }
}
