//! A text gives one flat design, or one note. The function here is a law, which is proved and does nothing when it runs.
#![tactic(auto)]

mod one;

pub use one::texts_are_read_once;
