ghost use Rattle.std.specs.Prelude.{◌≡◌, ◌-◌, ◌^◌, ◌<◌, nat_lt, slice_set};
ghost use Rattle.sites.specs.Lists.{front};
ghost use Rattle.words.specs.Words.{sites_of};
ghost use Rattle.notebooks.specs.Notebooks.{empty_book, bit_at, noted as noted_in, told_by};
ghost use Rattle.tables.specs.Entries.{path_word};
ghost use Rattle.tables.specs.Tables.{table_network};
ghost use Rattle.rounds.specs.Recalling.{Asks, or_unheard, recall_reply};

use crate::notebook::Notebook;
use sites::Refusal;
use tables::PathTable;
use words::{Kind, Path, PathWord};

// A path without its last site; the empty path for the empty one.
pub(crate) fn front_of(path: &Path) -> Path
    ensures { sites_of result ≡ front (sites_of path.now) }
{
    let sites = path.sites();
    Path::new(&sites[..sites.len().saturating_sub(1)]).unwrap()
}

// The flood word, with bit 0, of a path without its last site.
pub(crate) fn front_word(path: &Path) -> u32
    ensures { result ≡ path_word (front (sites_of path.now)) }
{
    PathWord::new(Kind::Flood, front_of(path), 0)
        .unwrap()
        .write()
}

// The path of a lawful flood word with bit 0; refused with 5 for any other word.
fn asked(word: u32) -> Result<Path, Refusal>
    ensures { Asks word result }
{
    let flood = PathWord::read(word)?;
    if flood.kind() != Kind::Flood || flood.tail() != 0 {
        return Err(Refusal::Path);
    }
    Ok(flood.path())
}

// A bit, or 29 where there is none.
fn or_refused(bit: Option<bool>) -> Result<bool, Refusal>
    ensures { result ≡ or_unheard bit }
{
    bit.ok_or(Refusal::Unheard)
}

impl Notebook {
    /// A notebook in which nothing is noted.
    pub fn new() -> Notebook
        ensures { result.words ≡ empty_book }
    {
        Notebook { words: [0; 325] }
    }

    /// Its words, in their order.
    pub fn words(&self) -> &[u32]
        ensures { result.now ≡ self.now.words }
    {
        &self.words
    }

    /// Puts a word at a place, and tells whether there is such a place: where there is none, nothing changes. A host that
    /// keeps the words of a notebook itself makes one of them so. Any word may stand anywhere, since of a word only its
    /// last bit counts.
    pub fn set_word(&mut self, place: usize, word: u32) -> bool
        ensures answer { result ≡ nat_lt place 325 }
        ensures after { self.new.words ≡ slice_set self.old.words place word }
    {
        let inside = place < self.words.len();
        if inside {
            self.words[place] = word;
        }
        inside
    }

    /// The bit noted at a place: the last bit of the word that stands there, and 0 past the end.
    pub fn bit_at(&self, place: usize) -> bool
        ensures { result ≡ bit_at self.now.words place }
    {
        self.words.get(place).is_some_and(|word| *word % 2 == 1)
    }

    // The bit noted for a path when so many rounds of a phase were heard; nothing where the table's site does not expect
    // the path or has not heard it yet.
    fn noted(&self, table: &PathTable, path: &Path, rounds: usize) -> Option<bool>
        ensures { result ≡ noted_in (table_network table.now) table.now.site rounds self.now.words (sites_of path.now) }
    {
        table.position(path, rounds).map(|place| self.bit_at(place))
    }

    /// The bit noted for a path, given as its flood word with bit 0, when so many rounds of a phase were heard. Refused
    /// with 5 where the word is not a lawful one of that kind and bit, and with 29 where the table's site does not expect
    /// the path or has not heard it yet.
    pub fn recalled(&self, table: &PathTable, word: u32, rounds: usize) -> Result<bool, Refusal>
        ensures { result ≡ recall_reply (table_network table.now) table.now.site rounds self.now.words word }
    {
        let path = asked(word)?;
        or_refused(self.noted(table, &path, rounds))
    }

    /// What the notebook tells of a path when all rounds of a phase were heard: the bit noted for it, and 1 where the
    /// table's site does not expect it.
    pub fn told(&self, table: &PathTable, path: &Path) -> bool
        ensures { result ≡ told_by (table_network table.now) table.now.site self.now.words (sites_of path.now) }
    {
        let rounds = (table.site_count() as usize).saturating_sub(1);
        self.noted(table, path, rounds).unwrap_or(true)
    }
}
