//! Lists of values that find a value without looking at the others.
#![tactic(auto)]

mod index;
mod list;
mod truths;

pub use list::ValueList;
