//! The engine and the worker over one timeline, step by step in any order.
#![tactic(auto)]

pub mod core_of_two;

pub use core_of_two::CoreOfTwo;
