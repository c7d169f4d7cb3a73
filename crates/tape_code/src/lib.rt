//! The instructions that an expression of a flat design is compiled to, and what they give.
#![tactic(auto)]

ghost use Rattle.tape_code.specs.Laws.{LastIsTheValue, LastIsTheSlope};

mod code;
mod instruction;

pub use code::compile;
pub use instruction::{Instruction, RealFunction, RealOperator};

/// Where each instruction gives a number, the last one is the value of the expression, and so with its slope. It is proved,
/// and does nothing when it runs.
pub fn last_is_the_expression()
    ensures value { LastIsTheValue }
    ensures slope { LastIsTheSlope }
{}
