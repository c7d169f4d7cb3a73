//! The branch of a simultaneous if or case statement at what is read (IEEE 1076.1). No call takes memory.
#![tactic(auto)]

mod selection;

pub use selection::selected;
