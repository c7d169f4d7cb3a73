//! A text is read, and the flat design of its top is run on threads.
#![tactic(auto)]

mod design;
mod text;

pub use text::simulate_on_threads;
