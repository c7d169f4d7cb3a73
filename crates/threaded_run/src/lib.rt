//! A run by two threads: the engine with the locked line, and the worker ahead of it.
#![tactic(auto)]

pub mod both;
pub mod sides;
pub mod start;

pub use sides::Ahead;
pub use start::{Ran, Runner, run};
