//! The check of a file's types and natures.
#![tactic(auto)]

mod files;

pub use files::{FileFaults, check_file};
