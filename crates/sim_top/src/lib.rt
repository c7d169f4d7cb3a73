//! The top call: from the words of the command line and the bytes of a design to the trace.
#![tactic(auto)]

mod ahead;
mod refusals;
mod replay;
mod top;
mod whole;

pub use program_output::Status;
pub use runahead_worker::Open;
pub use top::{simulate, simulate_plain};
pub use whole::outputs_are_whole;
