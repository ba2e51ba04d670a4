#![tactic(auto)]

mod draft;
mod expected_path;
mod laws;
mod routing;
mod site_wiring;
mod step;
mod table;
mod tables;
mod walk;
mod wiring;
mod wirings;

pub use expected_path::ExpectedPath;
pub use laws::edges_tell_the_paths;
pub use routing::Routing;
pub use table::PathTable;
pub use wiring::Wiring;
