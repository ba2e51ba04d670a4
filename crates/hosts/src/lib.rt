// Functions for hosts that are written in C or Rust: they take numbers and slices of words, and any of these. Each turns
// what a private function answers by `?` into a number, so that its clauses stand at both.
#![tactic(auto)]

mod beginning;
mod books;
mod calls;
mod checking;
mod end_words;
mod ends;
mod loading;
mod refused;
mod refusing;
mod running;
mod speaking;
mod taking;
mod weighing;

pub use beginning::rolgevin_end_begin;
pub use checking::rolgevin_check;
pub use running::rolgevin_run;
pub use speaking::rolgevin_end_speak;
pub use taking::rolgevin_end_take;
pub use weighing::rolgevin_end_weigh;
