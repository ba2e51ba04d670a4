use crate::notebook::Notebook;
use sites::SiteMask;
use tables::PathTable;

/// What the table's site has noted when all rounds of a phase were heard.
#[derive(Clone, Copy)]
pub(crate) struct Heard<'a> {
    pub(crate) table: &'a PathTable,
    pub(crate) notebook: &'a Notebook,
}

/// A phase that is over: the plan, what the site has noted, the set that was suspected, and the bit that the site held.
#[derive(Drop)]
pub(crate) struct Phase<'a, P> {
    pub(crate) plan: &'a P,
    pub(crate) heard: Heard<'a>,
    pub(crate) set: SiteMask,
    pub(crate) own: bool,
}
