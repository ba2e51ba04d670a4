/// How far a lane was read in a round, which is remembered: each of its first `place` words is below `above`.
#[derive(Clone, Copy)]
pub(crate) struct Ear {
    pub(crate) place: usize,
    pub(crate) above: u32,
}

/// How far each of the six lanes was read in a round.
#[derive(Clone, Copy)]
pub(crate) struct Ears {
    pub(crate) ears: [Ear; 6],
}
