ghost use Rattle.std.specs.Prelude.{◌≡◌};

/// A single end that has weighed the last phase.
pub struct Done {
    pub(crate) bit: bool,
}

impl Done {
    /// The bit that the site holds in the end.
    pub fn bit(self) -> bool
        ensures { result ≡ self.bit }
    {
        let Done { bit } = self;
        bit
    }
}
