use crate::ground::Ground;
use crate::record::Records;
use airs::Air;
use sites::SiteMask;

/// A floor over an air: all sites of one agreement.
#[derive(Drop)]
pub struct Floor<A: Air> {
    pub(crate) ground: Ground,
    pub(crate) rogues: SiteMask,
    pub(crate) records: Records,
    pub(crate) turns: usize,
    pub(crate) air: A,
}
