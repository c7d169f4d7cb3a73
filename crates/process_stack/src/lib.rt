//! Where a process stands in its text, as a stack of the statements round the place. No call but those that enter a
//! statement takes memory, and these only where the stack was never as high before.
#![tactic(auto)]

mod stack;
mod text;

pub use stack::{Frame, ProcessStack};
pub use text::{Round, body_at, inner_body, innermost, statement_at};
