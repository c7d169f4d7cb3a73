//! The run of a design on threads, with kernels that are made for it.
#![tactic(auto)]

mod kernels;
mod run;

pub use kernels::Kernels;
pub use run::{Asked, run_kernels};
