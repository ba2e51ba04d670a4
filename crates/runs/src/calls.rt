use sites::Refusal;

/// A call on an opened floor, with its arguments.
#[derive(Clone, Copy, PartialEq, Eq, Debug)]
pub enum Call {
    /// Puts a word for a rogue.
    Transmit { site: u8, word: u32 },
    /// Puts all that a sound site owes in this round.
    Speak { site: u8 },
    /// Lets all sound sites hear, and ends the round.
    Turn,
    /// Asks for the bit that a sound site holds.
    Held { site: u8 },
    /// Asks for that bit after the last phase.
    Decision { site: u8 },
    /// Asks for the bit in a sound site's notebook for a path, given as its flood word with bit 0.
    Recalled { site: u8, word: u32 },
}

/// What an accepted call answers.
#[derive(Clone, Copy, PartialEq, Eq, Debug)]
pub enum Value {
    /// A lane's new length, a number of words or a number of turns.
    Count(usize),
    /// The bit that was asked for.
    Bit(bool),
}

/// What a call answers. A refused one changed nothing.
pub type Answer = Result<Value, Refusal>;
