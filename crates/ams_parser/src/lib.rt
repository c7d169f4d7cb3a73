//! Reads design files.
#![tactic(auto)]

mod contexts;
mod entities;
mod files;
mod read;

pub use read::{fronts_begin, one_tree, parse};
