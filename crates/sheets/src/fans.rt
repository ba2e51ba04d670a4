ghost use Rattle.std.specs.Prelude.{◌≡◌, ◌+◌, ◌-◌, ◌<◌, not, ◌&&◌, length, ◌==◌, slice_index};
ghost use Rattle.sites.specs.Positions.{all_from};
ghost use Rattle.words.specs.Layout.{path_field};
ghost use Rattle.sheets.specs.Parts.{site_at, end, apart, fan?, rogue_limit};
ghost use Rattle.sheets.specs.Rows.{first_fan, run_at};

use crate::parts::{FAN, end_of, rogue_limit};
use words::fields::{count_of, kind_of, site_of};

// Whether the site at a place of one path stands nowhere on another but at its end.
fn is_off(v: u32, i: usize, w: u32) -> bool
    ensures { result ≡ all_from (λ j. not (site_at v i == site_at w j)) 0 (length (path_field w) - 1) }
{
    let site = site_of(v, i);
    let stop = count_of(w).saturating_sub(1);
    (0..stop).all(|j| site != site_of(w, j))
}

// Whether two paths share no site but their ends.
fn are_apart(v: u32, w: u32) -> bool
    ensures { result ≡ apart v w }
{
    let stop = count_of(v).saturating_sub(1);
    (0..stop).all(|i| is_off(v, i, w))
}

// Whether a path shares no site but its end with some earlier ones.
fn is_apart_from_earlier(earlier: &[u32], word: u32) -> bool
    ensures { result ≡ all_from (λ j. apart (slice_index earlier.now j) word) 0 (length earlier.now) }
{
    earlier.iter().all(|other| are_apart(*other, word))
}

// Whether a path ends where the first one of its run does, and shares no other site with those before it.
fn joins_fan(earlier: &[u32], first: u32, word: u32) -> bool
    ensures { result ≡ (end word == end first && all_from (λ j. apart (slice_index earlier.now j) word) 0 (length earlier.now)) }
{
    end_of(word) == end_of(first) && is_apart_from_earlier(earlier, word)
}

/// Whether the paths of a run end at one site and share no other.
pub fn is_fan(run: &[u32]) -> bool
    ensures { result ≡ fan? run.now }
{
    // over places: with `enumerate` the search for what the chain tells does not end at a call over a part of the run
    (0..run.len()).all(|k| joins_fan(&run[..k], run[0], run[k]))
}

/// The place of the first fan path, from which fans are counted off; the sheet's length where it has none.
// The length and no Option: a sheet without fans has none to count off from there, so that no caller needs a case.
pub fn first_fan(words: &[u32]) -> usize
    ensures { result ≡ first_fan words.now }
{
    (1..words.len())
        .find(|i| kind_of(words[*i]) == FAN)
        .unwrap_or(words.len())
}

// How many words a fan has.
pub(crate) fn fan_size(words: &[u32]) -> usize
    ensures { result ≡ rogue_limit words.now + 1 }
{
    usize::from(rogue_limit(words)) + 1
}

/// The f + 1 words from a place on, or what is left of the sheet.
pub fn run_at(words: &[u32], place: usize) -> &[u32]
    ensures { result.now ≡ run_at words.now place }
{
    let start = place.min(words.len());
    let size = fan_size(words).min(words.len() - start);
    &words[start..start + size]
}
