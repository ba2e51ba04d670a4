ghost use Rattle.std.specs.Prelude.{◌≤◌};

/// How many sites a network has, at most six, and how many of them may be rogue, at most two: n and f.
#[derive(Clone, Copy, PartialEq, Eq, Debug)]
pub struct NetworkSize {
    pub sites: u8,
    pub rogues: u8,
    ghost few: { sites ≤ 6 },
    ghost limited: { rogues ≤ 2 },
}
