//! The driver of an engine beside a worker: each move with the call of the locked line that it asks for.
#![tactic(auto)]

pub mod calls;
pub mod driver;
pub mod round;

pub use driver::drive;
pub use round::Scratch;
