//! Tokens are one design file or have one first fault. The function here is a law, which is proved and does nothing when it
//! runs.
#![tactic(auto)]

mod one;

pub use one::files_are_read_once;
