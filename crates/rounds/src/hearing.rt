ghost use Rattle.std.specs.Prelude.{◌≡◌, ℕ, ◌-◌, ◌^◌, ◌<◌, ◌≤◌, true, drop};
ghost use Rattle.sites.specs.Lists.{front, final};
ghost use Rattle.words.specs.Words.{sites_of};
ghost use Rattle.airs.specs.Lanes.{Lanes, lane, word_at};
ghost use Rattle.notebooks.specs.Floods.{first_of_two, heard_in};
ghost use Rattle.notebooks.specs.Notebooks.{note_round, take_round};
ghost use Rattle.tables.specs.Entries.{path_word};
ghost use Rattle.tables.specs.Tables.{table_network};
ghost use Rattle.rounds.specs.Ears.{Below, Tuned, note_of, stops_at};

use crate::ears::{Ear, Ears};
use crate::notebook::Notebook;
use crate::recalling::front_word;
use crate::speaking::{first_of_round, with_bit};
use airs::Air;
use tables::{ExpectedPath, PathTable};
use words::Path;

// Whether a lane has a word at a place that is not below the wanted one.
fn stops<A: Air>(air: &A, site: u8, place: usize, wanted: u32) -> bool
    ensures { result ≡ stops_at wanted (word_at (A.lanes air.now) site place) }
{
    air.at(site, place).is_some_and(|word| word >= wanted)
}

// A place up to which all words of a lane are below the wanted one.
fn pass<A: Air>(air: &A, site: u8, wanted: u32, start: usize) -> usize
    requires { Below (lane (A.lanes air.now) site) start wanted }
    ensures { Below (lane (A.lanes air.now) site) result wanted }
{
    let count = air.count(site);
    (start..count)
        .find(|k| stops(air, site, *k, wanted))
        .unwrap_or(count)
}

// The bit of the first word of a lane, from a place on, that is the wanted one with bit 0 or 1; 1 where there is none.
fn search<A: Air>(air: &A, site: u8, wanted: u32, start: usize) -> bool
    ensures { result ≡ first_of_two wanted (drop start (lane (A.lanes air.now) site)) }
{
    // Two tests in a loop, each of a word against a number: a function from a word to its bit costs a quarter more
    // instructions, and a difference in the second test a third more. One bit more, since any word may be wanted.
    let with_one = u64::from(wanted) + 1;
    for k in start..air.count(site) {
        if let Some(word) = air.at(site, k) {
            if word == wanted {
                return false;
            }
            if u64::from(word) == with_one {
                return true;
            }
        }
    }
    true
}

/// The bit heard along a path: that of the first lawful flood word in the lane of its last site whose path is the path
/// without that site; 1 where there is none. A path has just two flood words, so whole words are compared.
pub fn heard<A: Air>(air: &A, path: &Path) -> bool
    ensures { result ≡ heard_in (lane (A.lanes air.now)) (sites_of path.now) }
{
    search(air, last_site(path), front_word(path), 0)
}

// The last site of a path; 0 for the empty path.
fn last_site(path: &Path) -> u8
    ensures { result ≡ final (sites_of path.now) }
{
    path.sites().last().copied().unwrap_or(0)
}

impl Ear {
    // The bit heard in a site's lane along the wanted path, given as its flood word with bit 0. What was passed
    // before need not be read again where the words below are below this one too: so a lane whose words ascend, as
    // those of a sound site do, is read once in a round.
    fn hear<A: Air>(&mut self, air: &A, site: u8, wanted: u32) -> bool
        requires { Below (lane (A.lanes air.now) site) self.old.place self.old.above }
        ensures heard { result ≡ first_of_two wanted (lane (A.lanes air.now) site) }
        ensures tuned { Below (lane (A.lanes air.now) site) self.new.place self.new.above }
    {
        let start = if wanted < self.above { 0 } else { self.place };
        let place = pass(air, site, wanted, start);
        self.place = place;
        self.above = wanted;
        search(air, site, wanted, place)
    }
}

impl Ears {
    // Nothing is read yet.
    fn new() -> Ears
        ensures { (ls : Lanes) → Tuned ls result }
    {
        Ears {
            ears: [Ear { place: 0, above: 0 }; 6],
        }
    }

    // The flood word to note for a path.
    fn hear<A: Air>(&mut self, air: &A, path: ExpectedPath) -> u32
        requires { (Tuned (A.lanes air.now) self.old) × ((path.last < 6) × (path.word < 2 ^ 32 - 1)) }
        ensures heard { result ≡ note_of (A.lanes air.now) path }
        ensures tuned { Tuned (A.lanes air.now) self.new }
    {
        let bit = self.ears[path.last as usize].hear(air, path.last, path.front);
        with_bit(path.word, bit)
    }
}

impl Notebook {
    /// Hears a round of a phase, counted from 1: notes a flood word for each path of so many sites that the table's
    /// site expects, with the bit heard along it. What is noted elsewhere stays. There is no path for round 0 or for a
    /// round past the fifth, and nothing changes.
    pub fn hear_round<A: Air>(&mut self, air: &A, table: &PathTable, round: usize)
        ensures { self.new.words ≡ note_round (table_network table.now) table.now.site round (heard_in (lane (A.lanes air.now))) self.old.words }
    {
        let start = first_of_round(table, round);
        let paths = &table.up_to(round)[start..];
        let mut ears = Ears::new();
        // the words are counted: a proof knows nothing of a slice that was gone over by `iter_mut` beside another
        for (i, path) in paths.iter().enumerate() {
            self.words[start + i] = ears.hear(air, *path);
        }
    }

    /// Takes a round of a phase, counted from 1: hears it as `hear_round` does, the first round with an empty notebook.
    pub fn take_round<A: Air>(&mut self, air: &A, table: &PathTable, round: usize)
        ensures { self.new.words ≡ take_round (table_network table.now) table.now.site round (heard_in (lane (A.lanes air.now))) self.old.words }
    {
        if round == 1 {
            *self = Notebook::new();
        }
        self.hear_round(air, table, round);
    }
}
