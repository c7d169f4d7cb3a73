//! What every rule of a parser is made of: a reader over tokens, why it stops, and what the partial calls answer.
#![tactic(auto)]

mod fault;
mod limits;
mod reader;

pub use fault::{ParseFault, fault_at};
pub use limits::{MOST_LEVELS, MOST_OPERATORS};
pub use reader::{Reader, Stop};
