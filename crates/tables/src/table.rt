ghost use Rattle.std.specs.Prelude.{◌≡◌, ℕ, ◌<◌, map, length, take, slice_index};
ghost use Rattle.theory.specs.Flooding.{expected_up_to};
ghost use Rattle.tables.specs.Wirings.{wired};
ghost use Rattle.tables.specs.Entries.{entry_of};

use crate::expected_path::ExpectedPath;
use crate::wiring::Wiring;

/// The paths along which a site expects a bit, by length, then ascending: place i is place i of the site's notebook.
/// `ends[k]` is how many of them have at most k sites.
// An array with the number of its paths beside it: there is no heap, and callers copy tables.
#[derive(Clone, Copy)]
pub struct PathTable {
    pub(crate) wiring: Wiring,
    pub(crate) site: u8,
    pub(crate) entries: [ExpectedPath; 325],
    pub(crate) ends: [usize; 6],
    ghost long: { length entries ≡ 325 },
    ghost six: { length ends ≡ 6 },
    ghost counted: { (k : ℕ) → k < 6 → slice_index ends k ≡ length (expected_up_to (wired wiring.n wiring.near) site k) },
    ghost listed: { take (slice_index ends 5) entries ≡ map entry_of (expected_up_to (wired wiring.n wiring.near) site 5) },
}
