ghost use Rattle.std.specs.Prelude.{◌≡◌, ℕ, ◌<◌, ◌≤◌, [], length, take, sum, slice_index, slice_index_or};
ghost use Rattle.airs.specs.Runs.{Sited, Filed};

use super::entry::Entry;

/// An air of one common run of pairs. Beside the run it keeps, for each site, how many words it has put and where in
/// the run they stand, so that neither `count` nor `at` goes along the run.
// Arrays with their numbers beside them: to empty a vector of fixed capacity is to write a blank over each element.
#[derive(Drop)]
pub struct Strip {
    pub(crate) run: [Entry; 960],
    pub(crate) len: usize,
    pub(crate) places: [[u16; 160]; 6],
    pub(crate) counts: [usize; 6],
    ghost long: { length run ≡ 960 },
    ghost fits: { len ≤ 960 },
    ghost whole: { sum counts ≡ len },
    ghost wide: { (s : ℕ) → s < 6 → length (slice_index_or places s []) ≡ 160 },
    ghost within: { (s : ℕ) → s < 6 → slice_index counts s ≤ 160 },
    ghost sited: { Sited (take len run) },
    ghost filed: { Filed counts places (take len run) },
}
