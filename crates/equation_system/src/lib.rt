//! The equation sets of a design (IEEE 1076.1): the explicit and the structural set with an augmentation set, as Newton's
//! method asks for them. Only `EquationSystem::new` takes memory.
#![tactic(auto)]

mod posed;
mod system;

pub use posed::PosedSet;
pub use system::EquationSystem;
