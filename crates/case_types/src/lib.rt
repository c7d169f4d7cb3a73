//! The choices of a case.
#![tactic(auto)]

mod choices;
mod covering;
mod places;
mod seen;

pub use choices::{beside, read_choices};
pub use covering::is_covered;
pub use places::place_of;
pub use seen::{nothing_seen, values_since};
