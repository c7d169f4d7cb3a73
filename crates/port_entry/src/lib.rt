//! The ports of an instance, with what they are bound to.
#![tactic(auto)]

mod entry;
mod ports;
mod quantities;
mod rule;
mod signals;

pub use entry::Entry;
pub use ports::enter_ports;
