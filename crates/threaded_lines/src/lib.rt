//! The run of a design on threads, over any solver and any kernel, with its trace written line by line.
#![tactic(auto)]

mod start;
mod whole;
mod works;

pub use start::{Prepared, prepare};
pub use whole::{Written, run_on_threads};
pub use works::{Lined, run_lines};
