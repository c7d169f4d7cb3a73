//! Where a run stands between two works: the decisions there, and what each work leaves.
#![tactic(auto)]

pub mod decisions;
pub mod gathered;
pub mod outcomes;
pub mod place;
pub mod points;

pub use decisions::{DELTAS, stands, until};
pub use gathered::gather;
pub use outcomes::go_on;
pub use place::{RunPlace, Stage};
pub use points::Reached;
