//! A step of the engine with the call of the timeline that it asks for, and a step of the worker.
#![tactic(auto)]

pub mod hand;
pub mod leader;

pub use hand::Hand;
pub use leader::Leader;
