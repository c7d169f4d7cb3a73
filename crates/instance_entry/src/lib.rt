//! What is read of an instance before its architecture: its generics with their values, and its ports with what they are
//! bound to.
#![tactic(auto)]

mod instance;

pub use instance::entry_of_instance;
