//! The run of a flat design in lockstep, in fixed point, with its trace written line by line.
#![tactic(auto)]

mod flat;
mod laws;

pub use flat::run_flat;
pub use laws::lines_of_run;
