//! The analogue solver of a flat design in fixed point: steps, solutions at one time, and choices. No call but
//! `FixedSolver::new` takes memory.
#![tactic(auto)]

mod initial;
mod solver;
mod systems;

pub use solver::FixedSolver;
pub use systems::systems_are_solved;
