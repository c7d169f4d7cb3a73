//! Reads concurrent and simultaneous statements.
#![tactic(auto)]

mod assignments;
mod associations;
mod breaks;
mod equations;
mod instances;
mod processes;
mod read;
mod simultaneous;
mod statements;
mod tokens;

pub use read::{concurrent, fronts_begin, one_tree};
pub use statements::any_concurrent;
pub use tokens::begins_concurrent;
