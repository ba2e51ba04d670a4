/// An item of a sheet, with the place of its first word.
#[derive(Clone, Copy, PartialEq, Eq, Debug)]
pub enum Item<'a> {
    /// How many sites there are, and how many may be rogue.
    Head { place: usize, sites: u8, rogues: u8 },
    /// Two sites that are joined, the lower first.
    Edge { place: usize, low: u8, high: u8 },
    /// A route's word.
    Route { place: usize, word: u32 },
    /// The words of a fan, as they stand in the sheet.
    Fan { place: usize, run: &'a [u32] },
}

/// Moves along a sheet and gives out its items.
#[derive(Clone, Copy)]
pub struct Reader<'a> {
    pub(crate) words: &'a [u32],
    pub(crate) at: usize,
}
