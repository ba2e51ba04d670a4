ghost use Rattle.std.specs.Prelude.{◌≡◌};
ghost use Rattle.words.specs.Kinds.{kind_number, kind_named, suits};

/// What a path word is for, with the number in the word's highest bits.
#[derive(Clone, Copy, PartialEq, Eq, Debug)]
pub enum Kind {
    /// A bit that is flooded, with the path that it came along.
    Flood = 1,
    /// A route of a sheet.
    Route = 10,
    /// A path of a fan of a sheet.
    Fan = 11,
}
