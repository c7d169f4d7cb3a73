//! The whole trace of a run on threads, over any solver and any kernel, with the timeline and its notes given back.
#![tactic(auto)]

mod traced;
mod whole;

pub use traced::{NO_COUNTS, Traced};
pub use whole::trace_on_threads;
