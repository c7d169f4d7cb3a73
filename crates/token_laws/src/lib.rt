//! A text has one list of tokens or one first fault. The functions here are laws, which are proved and do nothing when they
//! run.
#![tactic(auto)]

mod one;

pub use one::texts_are_lexed_once;
