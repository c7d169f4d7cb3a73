//! Architectures and their statements, as the check of types and of natures sees them.
#![tactic(auto)]

mod architectures;
mod statements;

pub use architectures::architecture_checked;
pub use statements::judge_statements;
