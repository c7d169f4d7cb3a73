//! The eliminations of the last coefficients, kept for systems that have the same ones.
#![tactic(auto)]

mod choice;
mod column;
mod elimination;
mod kept;
mod matrix;
mod passes;
mod turns;

pub use elimination::Elimination;
pub use kept::KeptElimination;
