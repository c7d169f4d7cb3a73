//! What the check of a design's types and its elaboration give, as functions of the syntax tree: expressions and
//! declarations.
#![tactic(auto)]

mod book;
mod fault;
mod part;
mod typed;

pub use book::Book;
pub use fault::{Cause, Fault, Notes};
pub use part::Part;
pub use typed::{Asked, Context, Scale, StaticValue, Surrounding, Typed, Valued};
