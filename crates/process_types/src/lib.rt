//! Reading processes.
#![tactic(auto)]

mod ending;
mod region;
mod whole;

pub use whole::process;
