#![tactic(auto)]

mod asking;
mod floor;
mod ground;
mod grounds;
mod listing;
mod looking;
mod opening;
mod performing;
mod putting;
mod recalling;
mod record;
mod records;
mod speaking;
mod turning;

pub use floor::Floor;
pub use site_plans::SitePlan;
