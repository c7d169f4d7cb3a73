//! The numbers of a run: how many points, signal events and crossings it gives, and how many attempts it makes.
#![tactic(auto)]

mod counts;
mod laws;
mod line;

pub use counts::{CountedRun, EventCounts, RunCounts, count_events};
pub use laws::{counts_join, runs_have_few_moves};
pub use line::push_counts;
