//! Newton's method on an equation set, from one point to the next. No call but `Newton::new` takes memory.
#![tactic(auto)]

mod causes;
mod correction;
mod equation_set;
mod rounds;

pub use causes::of_evaluation;
pub use equation_set::EquationSet;
pub use rounds::Newton;
