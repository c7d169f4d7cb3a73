//! Reading the associations of instances.
#![tactic(auto)]

mod associations;
mod generics;
mod maps;
mod ports;

pub use associations::{generic_associations, port_associations};
pub use generics::generic_actual;
pub use maps::{InstanceMaps, instance_maps};
pub use ports::port_actual;
