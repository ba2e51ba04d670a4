ghost use Rattle.std.specs.Prelude.{◌≡◌, ◌-◌, ◌/◌, ◌%◌};
ghost use Rattle.sheets.specs.Parts.{source, end, avoids as does_avoid, edge_word, word_at, site_count, rogue_limit, joined};

use sites::SiteMask;
use words::Kind;
use words::fields::{count_of, site_of};

// The kinds of a sheet's words. Numbers and no enum: rows 3 and 5 also compare the numbers of words that have none of these kinds.
pub(crate) const HEAD: u32 = 8;

pub(crate) const EDGE: u32 = 9;

pub(crate) const ROUTE: u32 = Kind::Route as u32;

pub(crate) const FAN: u32 = Kind::Fan as u32;

// The first word of a sheet; 0 where it has none.
pub(crate) fn head_of(words: &[u32]) -> u32
    ensures { result ≡ word_at words.now 0 }
{
    words.first().copied().unwrap_or(0)
}

// How many sites a head tells.
pub(crate) fn site_count_of(word: u32) -> u8
    ensures { result ≡ word / 16 % 16 }
{
    (word / 16 % 16) as u8
}

// How many sites may be rogue, as a head tells.
pub(crate) fn rogue_limit_of(word: u32) -> u8
    ensures { result ≡ word % 16 }
{
    (word % 16) as u8
}

// The two sites of an edge, the lower first in a lawful one.
pub(crate) fn sites_of_edge(word: u32) -> (u8, u8)
    ensures { (result.0 ≡ word / 8 % 8) × (result.1 ≡ word % 8) }
{
    ((word / 8 % 8) as u8, (word % 8) as u8)
}

/// How many sites the head tells.
pub fn site_count(words: &[u32]) -> u8
    ensures { result ≡ site_count words.now }
{
    site_count_of(head_of(words))
}

/// How many sites may be rogue, as the head tells.
pub fn rogue_limit(words: &[u32]) -> u8
    ensures { result ≡ rogue_limit words.now }
{
    rogue_limit_of(head_of(words))
}

// The edge between two sites.
fn edge_between(a: u8, b: u8) -> u32
    ensures { result ≡ edge_word a b }
{
    0x9000_0000 + u32::from(a.min(b)) * 8 + u32::from(a.max(b))
}

/// Whether some word after the head is the edge between two sites. Edges stand first, so that of two joined
/// sites it is found within the edges.
pub fn are_joined(words: &[u32], a: u8, b: u8) -> bool
    ensures { result ≡ joined words.now a b }
{
    let edge = edge_between(a, b);
    words.iter().skip(1).any(|word| *word == edge)
}

/// The first site of a word's path; 0 where it names none.
pub fn source_of(word: u32) -> u8
    ensures { result ≡ source word }
{
    site_of(word, 0)
}

/// The last site of a word's path; 0 where it names none.
pub fn end_of(word: u32) -> u8
    ensures { result ≡ end word }
{
    site_of(word, count_of(word).saturating_sub(1))
}

/// Whether none of the sites between the two ends of a word's path is in a set.
pub fn avoids(set: SiteMask, word: u32) -> bool
    ensures { result ≡ does_avoid set.bits word }
{
    let stop = count_of(word).saturating_sub(1);
    (1..stop).all(|i| !set.contains(site_of(word, i)))
}
