ghost use Rattle.std.specs.Prelude.{◌≡◌, ℕ, ◌^◌, ◌<◌, ◌≤◌, length, slice_index};

/// The sites and edges of a network: how many sites there are, at most six, and the neighbours of each as a mask.
// Masks as numbers: what a wired network is reads them as such, and a SiteMask would only be opened each time.
#[derive(Clone, Copy)]
pub struct Wiring {
    pub(crate) n: u8,
    pub(crate) near: [u32; 6],
    ghost few: { n ≤ 6 },
    ghost six: { length near ≡ 6 },
    ghost below: { (u : ℕ) → slice_index near u < 2 ^ n },
}
