ghost use Rattle.std.specs.Prelude.{◌≡◌, ◌+◌, ◌-◌, ◌<◌, not, ◌&&◌, length, nat_lt, nat_le, slice_index};
ghost use Rattle.sites.specs.Positions.{all_from};
ghost use Rattle.sites.specs.declared.refusal.Refusal.TheVariants.{SheetSize, Head, Kind, Edge, Path, Fan};
ghost use Rattle.words.specs.Layout.{kind_field};
ghost use Rattle.sheets.specs.Parts.{joined, head?, edge?, path_word?};
ghost use Rattle.sheets.specs.Rows.{size_fault, head_fault, kind_fault, edge_fault, path_fault, fan_at?, fan_fault};
ghost use Rattle.sheets.specs.Refusals.{told, well_formed};
ghost use Rattle.sheets.specs.Steps.{path_told, wired, ReadsAt};

use crate::fans::{fan_size, first_fan, is_fan, run_at};
use crate::parts::{
    EDGE, FAN, ROUTE, are_joined, head_of, rogue_limit_of, site_count, site_count_of, sites_of_edge,
};
use crate::refusal::SheetRefusal;
use sites::Refusal;
use words::PathWord;
use words::fields::kind_of;

// A row's answer: its refusal with the place, if it found one.
fn told(refusal: Refusal, found: Option<usize>) -> Result<(), SheetRefusal>
    ensures { result ≡ told refusal found }
{
    match found {
        Some(place) => Err(SheetRefusal { refusal, place }),
        None => Ok(()),
    }
}

// Row 1: a sheet has 1 to 1,024 words.
fn check_size(words: &[u32]) -> Result<(), SheetRefusal>
    ensures { result ≡ told SheetSize (size_fault words.now) }
{
    let fits = (1..=1024).contains(&words.len());
    told(Refusal::SheetSize, (!fits).then_some(0))
}

// Whether a word is a head: 2 to 6 sites, at most two of them rogue, and no other bits.
fn is_head(word: u32) -> bool
    ensures { result ≡ head? word }
{
    word / 256 == 0x80_0000 && (2..=6).contains(&site_count_of(word)) && rogue_limit_of(word) <= 2
}

// Row 2: its first word is a head.
fn check_head(words: &[u32]) -> Result<(), SheetRefusal>
    ensures { result ≡ told Head (head_fault words.now) }
{
    told(Refusal::Head, (!is_head(head_of(words))).then_some(0))
}

// Row 3: each later kind is 9, 10 or 11, and not below the kind before.
// Over places, as rows 4 and 6: the place is the answer, and a chain over words would have to add 1 to what it finds.
fn check_kinds(words: &[u32]) -> Result<(), SheetRefusal>
    ensures { result ≡ told Kind (kind_fault words.now) }
{
    let found = (1..words.len()).find(|i| {
        let kind = kind_of(words[*i]);
        kind < EDGE || FAN < kind || kind < kind_of(words[*i - 1])
    });
    told(Refusal::Kind, found)
}

// Whether a word is an edge that joins two different sites below n, the lower first.
fn is_edge(n: u8, word: u32) -> bool
    ensures { result ≡ edge? n word }
{
    let (low, high) = sites_of_edge(word);
    word < 0x9000_0040 && low < high && high < n
}

// Row 4: each edge joins two different sites below n, the lower first, and is above the word before.
fn check_edges(words: &[u32]) -> Result<(), SheetRefusal>
    ensures { result ≡ told Edge (edge_fault words.now) }
{
    let n = site_count(words);
    let found = (1..words.len()).find(|i| {
        let word = words[*i];
        kind_of(word) == EDGE && !(is_edge(n, word) && words[*i - 1] < word)
    });
    told(Refusal::Edge, found)
}

// Whether all of some sites are below n.
fn are_below(sites: &[u8], n: u8) -> bool
    ensures { result ≡ all_from (λ j. nat_lt (slice_index sites.now j) n) 0 (length sites.now) }
{
    sites.iter().all(|site| *site < n)
}

// Whether successive sites are joined by an edge of the sheet.
fn are_linked(words: &[u32], sites: &[u8]) -> bool
    ensures { result ≡ all_from (λ j. joined words.now (slice_index sites.now j) (slice_index sites.now (j + 1))) 0 (length sites.now - 1) }
{
    sites
        .windows(2)
        .all(|pair| are_joined(words, pair[0], pair[1]))
}

// Whether sites are below n and successive ones are joined.
fn are_wired(words: &[u32], sites: &[u8]) -> bool
    ensures { result ≡ wired words.now sites.now }
{
    are_below(sites, site_count(words)) && are_linked(words, sites)
}

// The path word at a place; the word reader's refusal is given that place.
fn path_at(words: &[u32], i: usize) -> Result<PathWord, SheetRefusal>
    requires { (0 < i) × (i < length words.now) }
    ensures { ReadsAt words.now i result }
{
    PathWord::read(words[i]).map_err(|refusal| SheetRefusal { refusal, place: i })
}

// One place of row 5.
fn check_path(words: &[u32], i: usize) -> Result<(), SheetRefusal>
    requires { (0 < i) × (i < length words.now) }
    ensures { result ≡ path_told words.now i }
{
    if kind_of(words[i]) < ROUTE {
        return Ok(());
    }
    let path = path_at(words, i)?.path();
    if !are_wired(words, path.sites()) {
        return Err(SheetRefusal {
            refusal: Refusal::Path,
            place: i,
        });
    }
    Ok(())
}

// Row 5: each route and fan path is lawful, over sites below n, along edges.
// A loop over places and no search: a refusal holds the place, and a search would drop the one that the word reader gives.
fn check_paths(words: &[u32]) -> Result<(), SheetRefusal>
    ensures { result ≡ told Path (path_fault words.now) }
{
    for i in 1..words.len() {
        check_path(words, i)?;
    }
    Ok(())
}

// Whether the f + 1 words from a place on are a whole fan.
#[tactic(auto, using(crate::proofs::Runs::whole_run))]
fn is_fan_at(words: &[u32], place: usize) -> bool
    ensures { result ≡ fan_at? words.now place }
{
    let run = run_at(words, place);
    run.len() == fan_size(words) && is_fan(run)
}

// Row 6: fans are counted off from the first fan path, f + 1 words each.
fn check_fans(words: &[u32]) -> Result<(), SheetRefusal>
    ensures { result ≡ told Fan (fan_fault words.now) }
{
    let first = first_fan(words);
    let size = fan_size(words);
    let found = (1..words.len()).find(|i| {
        *i >= first && (*i - first) % size == 0 && !is_fan_at(words, *i)
    });
    told(Refusal::Fan, found)
}

/// Rows 1 to 6: the upper row answers, and a row covers the whole sheet before the next begins.
pub fn check(words: &[u32]) -> Result<(), SheetRefusal>
    ensures { result ≡ well_formed words.now }
{
    check_size(words)?;
    check_head(words)?;
    check_kinds(words)?;
    check_edges(words)?;
    check_paths(words)?;
    check_fans(words)
}
