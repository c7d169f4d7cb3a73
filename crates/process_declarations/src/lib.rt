//! Reading the declarations of a process.
#![tactic(auto)]

mod declarations;
mod names;
mod part;

pub use declarations::process_declarations;
pub use part::DeclarativePart;
