//! Names of nested regions, and what they stand for.
#![tactic(auto)]

mod region;
mod scope;
mod thing;

pub use region::Region;
pub use scope::Scope;
pub use thing::{Access, Kind, QuantityClass, Subtype, SubtypeConstraint, Thing};
