//! Which processes are called in a cycle: those that wait on a signal with an event, and those whose timeout is due.
#![tactic(auto)]

mod callers;
mod calling;

pub use callers::Callers;
pub use calling::call;
