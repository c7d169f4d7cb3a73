//! The rows of explicit equations: their residuals, and the rows of Newton's linear system. No call takes memory.
#![tactic(auto)]

mod branch;
mod fill;
mod residual;
mod sides;

pub use branch::branch_pairs;
pub use fill::fill_pairs;
pub use residual::write_residuals;
