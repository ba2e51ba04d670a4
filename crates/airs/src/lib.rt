#![tactic(auto)]

mod air;
mod board;
mod board_air;
mod entry;
mod laws;
mod six_lanes;
mod strip;
mod strip_air;

pub use air::Air;
pub use board::Board;
pub use entry::Entry;
pub use laws::{empty_law_holds, is_lane, put_law_holds};
pub use strip::Strip;
