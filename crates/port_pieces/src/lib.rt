//! Sources and sinks in memory that give and take a few bytes at a time, and some of whose calls fail.
#![tactic(auto)]

mod sink;
mod source;

pub use sink::PieceSink;
pub use source::PieceSource;
