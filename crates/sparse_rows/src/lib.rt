//! Linear systems of fixed-point numbers that keep of each row its non-zero entries alone.
#![tactic(auto)]

mod elimination;
mod rows;

pub use elimination::choose_pivot;
pub use rows::SparseRows;
