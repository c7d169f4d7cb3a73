//! What the words of the command line ask for, read by `clap`.
#![tactic(auto)]

mod command;
mod settings;
mod words;

pub use settings::Settings;
pub use words::read_settings;
