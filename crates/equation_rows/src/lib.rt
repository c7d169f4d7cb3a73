//! The rows of equations with their chosen branches (IEEE 1076.1): residuals, and the rows of Newton's linear system. No call
//! takes memory.
#![tactic(auto)]

mod fill;
mod parts;
mod residual;

pub use fill::fill_equations;
pub use residual::write_residuals;
