//! Reading simultaneous statements.
#![tactic(auto)]

mod alternatives;
mod branches;

pub use alternatives::case_statement;
pub use branches::if_statement;
