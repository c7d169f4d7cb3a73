//! Lists of numbers that find the first place of a number at once.
#![tactic(auto)]

mod numbers;

pub use numbers::NumberList;
