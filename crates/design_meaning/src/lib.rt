//! What a flat design means on its analogue side: the value and the slopes of an expression, the equation sets, Newton's
//! method, a trial step and a settled point. All of it is definitions for the contracts of the solver; the functions here
//! are laws.
#![tactic(auto)]

mod fault;
mod laws;

pub use fault::EvalFault;
pub use laws::{
    meaning_by_variants, sets_differ_in_augmentation, solutions_are_within_tolerance,
    sums_have_the_branch_ends, worked_solutions,
};
