ghost use Rattle.std.specs.Prelude.{◌≡◌, ℕ, ◌≤◌, length};

use crate::expected_path::ExpectedPath;

/// A table that is being written: its paths so far, and how many of them have at most k sites.
// An array with the number of its paths beside it, which becomes the table's: a vector of fixed capacity would be filled
// and copied once more.
#[derive(Clone, Copy)]
pub(crate) struct Draft {
    pub(crate) entries: [ExpectedPath; 325],
    pub(crate) len: usize,
    pub(crate) ends: [usize; 6],
    ghost long: { length entries ≡ 325 },
    ghost within: { len ≤ 325 },
    ghost six: { length ends ≡ 6 },
}
