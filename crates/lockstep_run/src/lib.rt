//! The run of a design in lockstep, over any solver and any kernel, with its trace written line by line.
#![tactic(auto)]

mod drive;
mod whole;

pub use whole::run_in_lockstep;
