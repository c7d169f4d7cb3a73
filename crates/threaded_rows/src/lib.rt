//! Runs on threads over a design whose steps, solutions and cycles are listed, with a gate that sets the order of both kernels.
#![tactic(auto)]

pub mod holds;
pub mod whole;

pub use holds::{Hold, Holds};
pub use whole::{Listing, Told, run_listed};
