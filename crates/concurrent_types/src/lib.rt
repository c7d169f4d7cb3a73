//! Reading concurrent and simultaneous statements.
#![tactic(auto)]

mod dispatch;
mod equations;
mod processes;

pub use dispatch::concurrent;
