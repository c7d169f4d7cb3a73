//! The value and the partial slopes of an equation's side from its instructions. No call takes memory but those that say so.
#![tactic(auto)]

mod numbers;
mod passes;
mod run;
mod short;
mod slopes;
mod tape;

pub use tape::{Tape, Work};
