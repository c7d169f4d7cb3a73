//! Reading generics and ports, as the check of types sees them.
#![tactic(auto)]

mod generics;
mod interfaces;
mod ports;

pub use generics::{first_place, generic, generic_default};
pub use interfaces::interface;
pub use ports::{access_of, is_out, quantity_subtype};
