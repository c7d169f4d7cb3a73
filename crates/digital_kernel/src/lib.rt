//! The digital side of a flat design: processes, drivers, thresholds and DOMAIN, cycle by cycle.
#![tactic(auto)]

mod ending;
mod kernel;
mod moving;
mod systems;

pub use kernel::DigitalKernel;
pub use systems::systems_are_run;
