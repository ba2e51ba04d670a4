ghost use Rattle.std.specs.Prelude.{◌≡◌, ◌≤◌, true, length, take};
ghost use Rattle.plans.specs.Sheets.{complete?};

/// A copy of a sheet that passed every check: there is no plan but a complete one.
// The words are an array with their number beside it: there is no heap, and callers copy plans.
#[derive(Clone, Copy)]
pub struct Plan {
    pub(crate) words: [u32; 1024],
    pub(crate) len: usize,
    ghost long: { length words ≡ 1024 },
    ghost within: { len ≤ 1024 },
    ghost whole: { complete? (take len words) ≡ true },
}
