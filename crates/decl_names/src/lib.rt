//! Declaring the names of declarations.
#![tactic(auto)]

mod declaring;
mod each;
mod entry;
mod enumeration;
mod objects;

pub use declaring::{declare, declare_faulty, declare_wrong};
pub use each::{
    declare_constants, declare_each, declare_nodes, declare_quantities, declare_signals,
    declare_types,
};
pub use entry::Entry;
pub use enumeration::declare_enumeration;
pub use objects::{constraint_of, number_behind, value_or_leftmost};
