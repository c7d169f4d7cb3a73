//! The parts of a digital kernel, and the state between cycles that they stand for.
#![tactic(auto)]

mod parts;

pub use parts::KernelParts;
