//! The generics of an instance, with their values.
#![tactic(auto)]

mod fitting;
mod generic_names;
mod generics;

pub use fitting::kept;
pub use generics::enter_generics;
