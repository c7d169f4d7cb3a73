//! Which unknowns an equation of a flat design reads, and which places of its row have to be asked for a slope.
#![tactic(auto)]

mod asked;
mod stands;

pub use asked::{Places, asked_places};
pub use stands::{stands_in, unread_slopes_are_alike};
