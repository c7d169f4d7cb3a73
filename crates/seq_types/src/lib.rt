//! Reading sequential statements: the rules that they break, and the statements with numbers for their names.
#![tactic(auto)]

mod loops;
mod statements;

pub use statements::{body, statement};
