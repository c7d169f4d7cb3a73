//! Events go from one list to another.
#![tactic(auto)]

mod copying;
mod handing;

pub use handing::hand_on;
