//! The processes of a cycle, one behind the other.
#![tactic(auto)]

mod kept;
mod one;
mod resumed;
mod sleep;
mod started;

pub use kept::KeptProcess;
pub use resumed::run_called;
pub use sleep::waiting_processes_sleep;
pub use started::{start_processes, unstarted};
