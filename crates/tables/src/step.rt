use crate::expected_path::ExpectedPath;
use sites::SiteMask;

/// A path on the way: the neighbours of its last site, the sites that it may still go to, and the weight of its next
/// field.
#[derive(Clone, Copy)]
pub(crate) struct Step {
    pub(crate) path: ExpectedPath,
    pub(crate) near: SiteMask,
    pub(crate) free: SiteMask,
    pub(crate) unit: u32,
}
