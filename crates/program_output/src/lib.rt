//! What a call of the program gives: its status, what stands behind the sinks then, and the writing of a note.
#![tactic(auto)]

mod note;
mod status;

pub use note::tell;
pub use status::Status;
