//! The rows that every equation set has besides the explicit equations (IEEE 1076.1): the conservation sum of each node, and
//! the difference of each across quantity. Their slopes are constant, so they are prepared once. Only `new` takes
//! memory.
#![tactic(auto)]

mod ends;
mod entries;
mod forms;
mod order;
mod residual;
mod rows;
mod slopes;

pub use rows::CommonRows;
