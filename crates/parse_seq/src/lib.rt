//! Reads sequential statements.
#![tactic(auto)]

mod compound;
mod read;
mod simple;
mod tokens;

pub use compound::any_statement;
pub use read::{fronts_begin, one_tree, statement};
pub use tokens::begins_statement;
