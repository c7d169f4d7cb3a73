//! A process from its place to the next wait.
#![tactic(auto)]

mod room;
mod running;
mod statement;

pub use room::StatementRoom;
pub use running::run;
