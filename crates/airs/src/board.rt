use super::six_lanes::SixLanes;

/// An air of six lanes side by side, each of size 120.
#[derive(Drop)]
pub struct Board {
    pub(crate) lanes: SixLanes<120>,
}
