//! What the check of a design's types and its elaboration give, as functions of the syntax tree: statements, units and
//! the walk over the instances.
#![tactic(auto)]

mod draft;
mod laws;
mod request;
mod site;

pub use draft::{Draft, Made, Seen, Spot};
pub use laws::small_files_are_worked;
pub use request::{Actual, Assigned, Request};
pub use site::{Limit, Refusal, Site};
