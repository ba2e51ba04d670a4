ghost use Rattle.std.specs.Prelude.{◌≡◌, ℕ, ◌≤◌, map, length, take, ◌==◌, position};
ghost use Rattle.std.specs.Option.{option_map};
ghost use Rattle.std.specs.List.{slice_get};
ghost use Rattle.words.specs.Words.{sites_of};
ghost use Rattle.tables.specs.Drafts.{drafted, Lists};
ghost use Rattle.tables.specs.Entries.{path_word, entry_of};
ghost use Rattle.tables.specs.Tables.{network_of, table_paths, place_in};

use crate::draft::Draft;
use crate::expected_path::ExpectedPath;
use crate::site_wiring::SiteWiring;
use crate::table::PathTable;
use crate::wiring::Wiring;
use words::{Kind, Path, PathWord};

// The paths that a site expects.
fn draft_of(wiring: &Wiring, site: u8) -> Draft
    ensures lists { Lists wiring.now.n wiring.now.near site 5 result }
    ensures len { result.len ≡ length (drafted result) }
{
    let mut draft = Draft::new();
    if site < wiring.n {
        draft.fill(&SiteWiring { wiring, site });
    }
    draft
}

// The place of the first entry with a word.
fn find(entries: &[ExpectedPath], word: u32) -> Option<usize>
    ensures { result ≡ position (λ e. e.word == word) entries.now }
{
    entries.iter().position(|entry| entry.word == word)
}

// So many entries from the first on.
fn first_entries(entries: &[ExpectedPath], count: usize) -> &[ExpectedPath]
    requires { count ≤ length entries.now }
    ensures { result.now ≡ take count entries.now }
{
    &entries[..count]
}

impl PathTable {
    /// The paths along which a site expects a bit. A site not below n expects none.
    pub fn of(wiring: &Wiring, site: u8) -> PathTable
        ensures wiring { result.wiring ≡ wiring.now }
        ensures site { result.site ≡ site }
    {
        let draft = draft_of(wiring, site);
        let entries = draft.entries;
        let ends = draft.ends;
        PathTable {
            wiring: *wiring,
            site,
            entries,
            ends,
        }
    }

    /// The site whose table it is.
    pub fn site(&self) -> u8
        ensures { result ≡ self.now.site }
    {
        self.site
    }

    /// How many sites the network has.
    pub fn site_count(&self) -> u8
        ensures value { result ≡ (network_of self.now.wiring).n }
        ensures most { result ≤ 6 }
    {
        self.wiring.n
    }

    /// How many paths of at most k sites the site expects.
    pub fn count(&self, k: usize) -> usize
        ensures value { result ≡ length (table_paths self.now k) }
        ensures most { result ≤ 325 }
    {
        self.ends[k.min(5)]
    }

    /// The paths of at most k sites, in notebook order.
    pub fn up_to(&self, k: usize) -> &[ExpectedPath]
        ensures { result.now ≡ map entry_of (table_paths self.now k) }
    {
        first_entries(&self.entries, self.count(k))
    }

    /// The flood word, with bit 0, of the path at a place of the notebook; none past the last path.
    pub fn word_at(&self, place: usize) -> Option<u32>
        ensures { result ≡ option_map path_word (slice_get (table_paths self.now 5) place) }
    {
        self.up_to(5).get(place).map(|entry| entry.word)
    }

    /// The place in the notebook of a path of at most k sites; none where the site does not expect it.
    pub fn position(&self, path: &Path, k: usize) -> Option<usize>
        ensures { result ≡ place_in (sites_of path.now) (table_paths self.now k) }
    {
        let flood = PathWord::new(Kind::Flood, *path, 0).ok()?;
        find(self.up_to(k), flood.write())
    }
}
