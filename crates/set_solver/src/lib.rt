//! The solutions of a design's equation sets (IEEE 1076.1): a step, a solution at one time, and the choices, as functions of
//! the design's lists. Only `SetSolver::new` takes memory.
#![tactic(auto)]

mod choices;
mod sets;
mod solver;

pub use solver::SetSolver;
