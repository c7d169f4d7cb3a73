//! The branches of all simultaneous if and case statements at what is read (IEEE 1076.1). No call takes memory.
#![tactic(auto)]

mod choose;

pub use choose::choose_branches;
