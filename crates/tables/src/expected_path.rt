/// A path along which a site expects a bit, as the scan of a lane wants it: its flood word with bit 0, that of the
/// path without its last site, and this site.
#[derive(Clone, Copy, Default)]
pub struct ExpectedPath {
    pub word: u32,
    pub front: u32,
    pub last: u8,
}
