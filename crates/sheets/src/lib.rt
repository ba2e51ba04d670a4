#![tactic(auto)]

pub mod fans;
pub mod parts;
mod reader;
mod reading;
mod refusal;
mod rows;

pub use reader::{Item, Reader};
pub use refusal::SheetRefusal;
pub use rows::check;
