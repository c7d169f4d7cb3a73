//! Reading subtype indications and the values that declarations give.
#![tactic(auto)]

mod constraint;
mod first;
mod given;
mod index;
mod indication;
mod part;
mod range;

pub use first::leftmost;
pub use given::{initial, valued, written_valued};
pub use indication::subtype;
pub use part::{close, note_unknown, static_part};
