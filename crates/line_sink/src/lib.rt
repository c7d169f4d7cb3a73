//! A sink of events that hands the line of each one to the sink of a trace.
#![tactic(auto)]

mod sink;

pub use sink::LineSink;
