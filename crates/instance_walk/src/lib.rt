//! The walk over the instances: from the units of a file to the objects of the flat design.
#![tactic(auto)]

mod refusals;
mod top;
mod walk;

pub use top::walked;
pub use walk::enter;
