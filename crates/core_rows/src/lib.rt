//! Runs of the core over a design whose steps, solutions and cycles are listed.
#![tactic(auto)]

pub mod calls;
pub mod whole;

pub use calls::{Asked, ask_all};
pub use whole::{Replayed, replay};
