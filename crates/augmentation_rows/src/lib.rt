//! The augmentation sets (IEEE 1076.1): the equation of each dot and its quantity, or the break element in its place. Their
//! rows of Newton's linear system, and their residuals. No call takes memory.
#![tactic(auto)]

mod fill;
mod forms;
mod residual;
mod set;
mod slopes;

pub use fill::{fill_augmentations, write_residuals};
pub use set::Augmentation;
