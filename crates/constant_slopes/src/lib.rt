//! Slopes of an expression that are the same wherever it has a value. They are found before anything is read.
#![tactic(auto)]

ghost use Rattle.constant_slopes.specs.Laws.{ConstantIsTheSlope};

mod known;

pub use known::constant_slope;

/// A constant slope is the slope wherever the expression has a value. It is proved, and does nothing when it runs.
pub fn constant_is_the_slope()
    ensures { ConstantIsTheSlope }
{}
