//! What a unit is read to before its statements.
#![tactic(auto)]

mod beginning;
mod labelling;
mod units;

pub use labelling::labels;
pub use units::{begin_architecture, entity_checked, opened};
