//! The drivers of a design's signals, with an agenda of their first transactions.
#![tactic(auto)]

mod numbers;
mod queues;

pub use numbers::DriverNumbers;
pub use queues::DriverSet;
