//! The run of a design in lockstep, over any solver and any kernel, whose events and attempts are counted.
#![tactic(auto)]

mod drive;
mod whole;

pub use whole::count_in_lockstep;
