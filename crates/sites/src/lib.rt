#![tactic(auto)]

mod mask;
mod network_size;
mod network_sizes;
mod refusal;

pub use mask::SiteMask;
pub use network_size::NetworkSize;
pub use refusal::Refusal;
