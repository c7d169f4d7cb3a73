//! Rows of fixed-point numbers that keep their non-zero entries alone.
#![tactic(auto)]

mod entry;
mod front;
mod passes;
mod products;
mod row;
mod scaling;

pub use row::SparseRow;
