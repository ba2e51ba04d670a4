#![tactic(auto)]

mod check;
mod checked;
mod lookups;
mod places;
mod plan;
mod plans;

pub use check::judge;
pub use plan::Plan;
