//! The status of a run, and what the run has handed on.
#![tactic(auto)]

mod status;

pub use status::{end_status, run_status, runs_hand_on};
