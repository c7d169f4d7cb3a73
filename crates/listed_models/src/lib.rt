//! A design whose steps, solutions and cycles are listed: a solver and a kernel that answer what stands in lists.
#![tactic(auto)]

pub mod kernel;
pub mod rows;
pub mod stepper;

pub use kernel::Script;
pub use rows::{CycleRow, Given, Levels, SolutionRow, StepAnswer, StepRow};
pub use stepper::Listed;
