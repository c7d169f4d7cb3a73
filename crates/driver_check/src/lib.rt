//! What is asked of a flat design as a whole: its drivers, and the length of its frame.
#![tactic(auto)]

mod count;
mod drivers;
mod flat;
mod frame;

pub use drivers::{doubly_driven, driven};
pub use flat::flat_of;
pub use frame::framed;
