use rounds::Notebook;

/// What a floor keeps of a site: the bit that it holds, whether it has spoken in this round, and its notebook.
#[derive(Clone, Copy)]
pub(crate) struct SiteRecord {
    pub(crate) bit: bool,
    pub(crate) spoken: bool,
    pub(crate) notebook: Notebook,
}

/// The records of the six sites. Those of rogues, and of sites past the last, stay blank.
// Apart from the tables of `Ground`, by site too: those stay as they are from open to open.
#[derive(Clone, Copy)]
pub(crate) struct Records {
    pub(crate) sites: [SiteRecord; 6],
}
