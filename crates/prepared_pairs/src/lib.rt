//! The explicit equations of a flat design, prepared for the rows of Newton's linear system: the places of a row that have to be
//! asked for a slope, and the slopes there that are the same wherever the equation has a residual.
#![tactic(auto)]

ghost use Rattle.prepared_pairs.specs.Laws.{ConstantIsTheRowSlope};

mod branches;
mod pair;

pub use branches::prepare_branches;
pub use pair::{PreparedPair, constant_in_row};

/// A constant slope of an equation is its slope wherever it has a residual. It is proved, and does nothing when it runs.
pub fn constant_is_the_row_slope()
    ensures { ConstantIsTheRowSlope }
{}
