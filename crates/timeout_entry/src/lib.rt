//! The timeouts of processes are entered into the agenda.
#![tactic(auto)]

mod entry;
mod law;

pub use entry::{enter_all, enter_called};
pub use law::entered_timeouts_are_of_states;
