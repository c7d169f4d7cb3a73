//! From the bytes of a text to the flat design of its top, or the note of the first refusal.
#![tactic(auto)]

mod file;
mod text;
mod unread;

pub use file::design_of_file;
pub use text::read_design;
pub use unread::Unread;
