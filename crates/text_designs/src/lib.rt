//! The flat design of a text is well formed. The function here is a law, which is proved and does nothing when it runs.
#![tactic(auto)]

mod designs;

pub use designs::texts_give_designs;
