//! The body of an instance: its interface, its declarations, and its statements read for the first time.
#![tactic(auto)]

mod bodies;
mod counts;
mod entries;

pub use bodies::enter_body;
