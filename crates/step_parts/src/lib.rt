//! The parts of a step that stand behind its solution: the error, its judgement, and the attempt. No call takes memory.
#![tactic(auto)]

mod attempts;
mod dots;
mod errors;

pub use attempts::record_attempt;
pub use dots::dots_of;
pub use errors::{judge_error, step_error};
