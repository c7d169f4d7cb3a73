//! Reads expressions.
#![tactic(auto)]

mod outer;
mod read;
mod rules;
mod tokens;

pub use outer::{listed_name, outermost, outermost_simple};
pub use read::{expression, fronts_begin, one_tree};
pub use tokens::{literal_of, name_of};
