//! The statements that change the world or the variables of a process: assignments, assertions, reports and breaks.
#![tactic(auto)]

mod assignment;
mod breaks;
mod effects;
mod report;

pub use assignment::{assign_signal, assign_variable};
pub use breaks::perform_break;
pub use effects::Effects;
pub use report::{perform_assert, perform_report};
