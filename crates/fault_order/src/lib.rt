//! The first of the broken rules that a stage answers.
#![tactic(auto)]

mod first;

pub use first::{Stage, code_of, first_fault};
