ghost use Rattle.std.specs.Prelude.{◌≡◌, ℕ, ◌+◌, ◌-◌, ◌*◌, ◌/◌, ◌%◌, ◌^◌, ◌<◌, length, slice_index};
ghost use Rattle.words.specs.Layout.{kind_field, path_field, site_fields, with_fields};

use std::array;

// Numbers for every word and place, 0 where a word names no site: so no function here asks anything of its caller.

/// The kind's number in a word's highest bits, whether or not it is the number of a kind.
pub fn kind_of(word: u32) -> u32
    ensures { result ≡ kind_field word }
{
    word >> 28
}

/// How many sites a word names, whether or not it is lawful.
pub fn count_of(word: u32) -> usize
    ensures { result ≡ length (path_field word) }
{
    ((word >> 25) % 8).min(6) as usize
}

/// The site at a place of a word's path, whether or not the word is lawful; 0 past the end.
pub fn site_of(word: u32, place: usize) -> u8
    ensures { result ≡ slice_index (path_field word) place }
{
    if place >= count_of(word) {
        return 0;
    }
    field(word, place)
}

// The field at one of the six places.
fn field(word: u32, place: usize) -> u8
    requires { place < 6 }
    ensures { result ≡ word / 2 ^ (22 - 3 * place) % 8 }
{
    ((word >> (22 - 3 * place)) % 8) as u8
}

// The six site fields of a word, the first site first.
pub(crate) fn sites_in(word: u32) -> [u8; 6]
    ensures { result ≡ site_fields word }
{
    array::from_fn(|place| field(word, place))
}

// A word from its parts: the kind and the count, six sites, three zero bits and the tail.
pub(crate) fn packed(top: u32, sites: &[u8; 6], tail: u8) -> u32
    requires { (top < 128) × ((((k : ℕ) → k < 6 → slice_index sites.now k < 6)) × (tail < 16)) }
    ensures { result ≡ with_fields top sites.now * 128 + tail }
{
    joined(top, sites) * 128 + u32::from(tail)
}

// The fields of six sites, below the kind and the count.
fn joined(top: u32, sites: &[u8; 6]) -> u32
    requires { (top < 128) × (((k : ℕ) → k < 6 → slice_index sites.now k < 6)) }
    ensures value { result ≡ with_fields top sites.now }
    ensures bound { result < 2 ^ 25 }
{
    sites
        .iter()
        .fold(top, |above, site| above << 3 | u32::from(*site))
}
