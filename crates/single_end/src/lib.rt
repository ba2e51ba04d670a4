#![tactic(auto)]

mod beginning;
mod done;
mod end_numbers;
mod end_site;
mod numbers;
mod round;
mod speaking;
mod taking;
mod weighing;
mod weighing_state;

pub use done::Done;
pub use numbers::Numbers;
pub use round::Round;
pub use taking::Taken;
pub use weighing::Weighed;
pub use weighing_state::Weighing;
