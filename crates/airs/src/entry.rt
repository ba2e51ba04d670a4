/// One pair of the strip's run: the word that names the site, then the word put.
#[derive(Clone, Copy, PartialEq, Eq, Debug, Default)]
pub struct Entry {
    pub site_word: u32,
    pub word: u32,
}
