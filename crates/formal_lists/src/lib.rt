//! The formals of an entity, which associations name.
#![tactic(auto)]

mod generics;
mod ports;
mod reading;

pub use generics::{GenericFormal, GenericFormals};
pub use ports::{PortFormal, PortFormals, port_formals};
pub use reading::generic_formals;
