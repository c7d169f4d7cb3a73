//! The instructions of a tape.

use fix_core::Fix;
use flat_expr::{SignalName, Unknown};

/// What is made of the number that stands just before.
#[derive(Clone, Copy, Debug, PartialEq, Eq)]
pub enum RealFunction {
    Plus,
    Minus,
    Absolute,
    Exp,
    Sin,
    Cos,
    Sqrt,
}

/// An operator of two numbers.
#[derive(Clone, Copy, Debug, PartialEq, Eq)]
pub enum RealOperator {
    Add,
    Subtract,
    Multiply,
    Divide,
}

/// What gives one number, by those of the instructions before it. The instructions of an operand stand together, its own
/// last, and those of the left operand before those of the right one.
#[derive(Clone, Copy, PartialEq, Eq)]
pub enum Instruction {
    Literal(Fix),
    /// A signal of REAL.
    Signal(SignalName),
    Unknown(Unknown),
    /// The time in REAL seconds.
    Now,
    Function(RealFunction),
    /// An operator, and how many instructions its right operand has.
    Operator(RealOperator, usize),
    /// The number just before to a power.
    Power(u32),
    /// What only the expression itself gives.
    Other,
}
