//! The mixed cycle: an engine over any solver and any kernel of one design, move by move.
#![tactic(auto)]

pub mod attempted;
pub mod choose;
pub mod cycle;
pub mod decide;
pub mod drive;
pub mod engine;
pub mod first;
pub mod found;
pub mod machine;
pub mod own;
pub mod probe;
pub mod proceed;
pub mod settle;
pub mod side;
pub mod solve;
pub mod start;
pub mod trial;
