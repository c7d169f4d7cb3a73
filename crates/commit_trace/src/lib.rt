//! The lines of a trace, appended to bytes. No call takes memory but for the growth of the output.
#![tactic(auto, using(crate::proofs::TextLemmas::text_rules))]

mod append;
mod end;
mod event;
mod head;
mod head_line;
mod text;
mod value;

pub use end::last;
pub use event::line;
pub use head::header;
pub use head_line::{options_line, signal_line, threshold_line, unknown_line};
pub use text::{VALUE_ROOM, value_text};
