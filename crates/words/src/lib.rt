#![tactic(auto)]

pub mod fields;
mod kind;
mod kinds;
mod path;
mod path_words;
mod paths;

pub use kind::Kind;
pub use path::{Path, PathWord};
