//! Which formal each association of an instance is for.
#![tactic(auto)]

mod formals;
mod matches;

pub use formals::{generic_numbers, port_names, port_numbers};
pub use matches::{Matches, matched};
