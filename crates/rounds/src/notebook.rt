ghost use Rattle.std.specs.Prelude.{◌≡◌, length};

/// The flood words that a site has noted in a phase, each at the place of its path: by length, then ascending.
#[derive(Clone, Copy)]
pub struct Notebook {
    pub(crate) words: [u32; 325],
    ghost long: { length words ≡ 325 },
}
