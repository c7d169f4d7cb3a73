//! The typed expressions and statements of a flat design: each node knows its type, and names are numbers.
#![tactic(auto)]

mod expr;
mod statement;
mod subtype;

pub use expr::{Direction, FlatExpr, Function, IndexRange, SignalName, Unknown};
pub use statement::{
    Alternative, Branch, BreakElement, DelayMechanism, Severity, Statement, WaveElement,
};
pub use subtype::Constraint;
