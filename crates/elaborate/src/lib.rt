//! The flat design of a file and a top.
#![tactic(auto)]

mod flattening;

pub use flattening::flatten;
