//! One cycle of a digital kernel, exactly that of the definition.
#![tactic(auto)]

mod calling;
mod cycled;
mod finding;
mod going;
mod looking;
mod running;
mod starting;

pub use cycled::cycle;
pub use starting::start;
