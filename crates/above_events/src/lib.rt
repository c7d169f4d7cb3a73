//! Crossings of thresholds: whether a point has one, and where a step has one.
#![tactic(auto)]

mod locate;
mod thresholds;

pub use locate::Locate;
pub use thresholds::differs;
