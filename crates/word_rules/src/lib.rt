//! The words of the command line: which there are, and which of them are accepted.
#![tactic(auto)]

mod check;
mod mode;
mod parts;
mod values;

pub use check::{check_words, wants_threads};
pub use mode::{Mode, mode_named};
pub use parts::NAMES;
pub use values::number_of;
