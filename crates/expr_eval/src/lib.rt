//! The value of an expression of a flat design, or its first fault. No call takes memory.
#![tactic(auto)]

mod evaluate;
mod function;
mod numbers;
mod values;
mod vector;

pub use evaluate::value;
pub use function::call;
pub use numbers::{fault_of_number, fault_of_operator, number, units};
pub use values::Values;
pub use vector::element;
