use sites::Refusal;

/// Why a host's call was refused.
#[derive(Clone, Copy)]
pub(crate) enum HostRefusal {
    /// The words are no call on a floor.
    NoCall,
    /// A lent slice is too short.
    TooShort,
    /// The words are no state that the call takes.
    NoState,
    /// The engine refused.
    Engine(Refusal),
}
