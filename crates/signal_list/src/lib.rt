//! Lists of signals, each once, that find a signal without looking at the others.
#![tactic(auto)]

mod index;
mod list;

pub use list::{SignalList, once};
