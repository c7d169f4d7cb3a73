//! The formals of entities, which are read once for all instances among the statements of an architecture.
#![tactic(auto)]

mod index;

pub use index::{EntityFormals, FormalIndex};
