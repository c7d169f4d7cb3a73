//! The units of a file by their names.
#![tactic(auto)]

mod units;

pub use units::Units;
