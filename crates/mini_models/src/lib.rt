//! The least solver and the least kernel: a quantity that has one of two levels, and a signal that changes once. They
//! show that what the mixed cycle asks of both sides can be met.
#![tactic(auto)]

pub mod calls;
pub mod kernel;
pub mod plan;
pub mod row;
pub mod stepper;

pub use calls::first_events;
pub use kernel::Switch;
pub use plan::{Change, Plan};
pub use stepper::Level;
