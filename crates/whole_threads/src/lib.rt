//! The run of a well-formed flat design on threads, with its own kernel and its own two solvers.
#![tactic(auto)]

mod flat;
mod whole;

pub use whole::run_whole_on_threads;
