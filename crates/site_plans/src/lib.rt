#![tactic(auto)]

mod knowing;
mod routing;
mod site_plan;

pub use site_plan::SitePlan;
