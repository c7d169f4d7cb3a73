//! The names whose `'dot` stands in an equation.
#![tactic(auto)]

mod dots;

pub use dots::selectors_of;
