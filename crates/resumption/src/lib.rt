//! Which processes resume in a cycle (IEEE 1076, 14.7.5): all waits are looked at before any process runs. No call but the one
//! that finds the waits of a design takes memory.
#![tactic(auto)]

mod asleep;
mod met;
mod resuming;
mod sleeper;
mod waits;

pub use asleep::Asleep;
pub use met::is_met;
pub use resuming::resume;
pub use waits::Waits;
