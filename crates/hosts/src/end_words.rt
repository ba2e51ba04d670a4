/// The state that the seven words of an end tell, by their first word.
#[derive(Clone, Copy)]
pub(crate) enum Tag {
    Round = 1,
    Weighing = 2,
    Done = 3,
}

/// How many words a host keeps a single end by.
pub(crate) const END_WORDS: usize = 7;

/// The seven words by which a host keeps a single end. The tag is a number here, since a host may write any; it is only
/// compared with the one that a call takes.
#[derive(Clone, Copy)]
pub(crate) struct EndWords {
    pub(crate) tag: u32,
    pub(crate) site: u32,
    pub(crate) bit: u32,
    pub(crate) phase: u32,
    pub(crate) round: u32,
    pub(crate) n: u32,
    pub(crate) f: u32,
}
