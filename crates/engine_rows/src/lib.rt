//! Worked rows of the engine: a run over a design that is listed, which tells what each move says.
#![tactic(auto)]

pub mod whole;

pub use whole::{Looks, Shown, run};
