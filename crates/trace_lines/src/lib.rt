//! The lines of a whole trace, handed to a sink one after another.
#![tactic(auto)]

mod event_lines;
mod header_lines;
mod laws;

pub use event_lines::{put_end, put_events};
pub use header_lines::put_header;
pub use laws::lines_are_the_trace;
