//! A text is read, and the flat design of its top is run: in lockstep, as a generated ladder, or replayed by a schedule.
#![tactic(auto)]

mod lockstep;
mod making;
mod replay;
mod start;

pub use lockstep::simulate_text;
pub use making::make_ladder;
pub use replay::replay_text;
pub use start::read_or_refuse;
