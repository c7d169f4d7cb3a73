//! A well-formed flat design with its own kernel and solvers, in each mode: in lockstep, counted, and replayed by a schedule.
#![tactic(auto)]

mod counted_flat;
mod counted_whole;
mod lockstep;
mod lockstep_whole;
mod made_lines;
mod making;
mod replay;
mod replay_flat;
mod replay_whole;

pub use lockstep::run_design;
pub use making::make_design;
pub use replay::replay_design;
