//! Each point that a run gives meets its equations. The functions here are laws, which are proved and do nothing when they
//! run.
#![tactic(auto)]

mod laws;

pub use laws::{fronts_meet_their_equations, points_meet_their_equations};
