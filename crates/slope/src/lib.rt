//! The partial slopes of an expression of a flat design by its unknowns, or its first fault. No call takes memory.
#![tactic(auto)]

mod functions;
mod numbers;
mod operators;
mod partial;

pub use partial::{slope, slopes};
