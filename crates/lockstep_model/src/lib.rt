//! What a run is: lockstep over any system, and the walk of its list of works.
#![tactic(auto)]

pub mod laws;
pub mod moves;

pub use moves::{Answer, Ask, Moved};
