//! Concurrent assignments, assertions and breaks as their equivalent processes.
#![tactic(auto)]

mod assertions;
mod assignments;
mod breaks;
mod waiting;

pub use assertions::concurrent_assertion;
pub use assignments::concurrent_assignment;
pub use breaks::concurrent_break;
