//! The replay of a design: an engine and a worker over one timeline by a schedule of steps, over any solver and any kernel, with
//! the trace written line by line.
#![tactic(auto)]

mod steps;
mod whole;

pub use whole::{Replayed, run_replay};
