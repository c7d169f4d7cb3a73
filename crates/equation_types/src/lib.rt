//! Reading equations, and how many of them a statement has.
#![tactic(auto)]

mod equations;
mod lengths;

pub use equations::{CHOOSING, EQUATING, pairs, simple};
pub use lengths::{case_lengths, compare, equation_count, first_length, if_lengths};
