ghost use Rattle.std.specs.Prelude.{◌≡◌, ◌≤◌, true, length, take};
ghost use Rattle.words.specs.Kinds.{suits};
ghost use Rattle.words.specs.Paths.{path?, zero_from};

use crate::kind::Kind;

/// A list of different sites below 6, at most six of them. The places past its end hold 0.
// Six fields and how many count, since a path is copied and the engine takes no memory from a heap.
#[derive(Clone, Copy, PartialEq, Eq, Debug)]
pub struct Path {
    pub(crate) sites: [u8; 6],
    pub(crate) len: usize,
    ghost six: { length sites ≡ 6 },
    ghost within: { len ≤ 6 },
    ghost lawful: { path? (take len sites) ≡ true },
    ghost padded: { zero_from sites len ≡ true },
}

/// A path with a kind and a tail that suit each other: just what a lawful word holds.
#[derive(Clone, Copy, PartialEq, Eq, Debug)]
pub struct PathWord {
    pub(crate) kind: Kind,
    pub(crate) path: Path,
    pub(crate) tail: u8,
    ghost suited: { suits kind path.len tail ≡ true },
}
