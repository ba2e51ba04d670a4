#![tactic(auto)]

mod ears;
mod hearing;
mod laws;
mod notebook;
mod phase;
mod recalling;
mod speaking;
mod weighing;

pub use hearing::heard;
pub use laws::edges_tell_the_notebook;
pub use notebook::Notebook;
pub use weighing::keepers;
