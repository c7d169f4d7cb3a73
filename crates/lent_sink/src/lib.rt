//! A sink that is lent to a call that takes one by value.
#![tactic(auto)]

mod lent;

pub use lent::{Lender, Lent};
