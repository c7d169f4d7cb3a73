//! The note of a text or a design that is refused.
#![tactic(auto, using(crate::proofs::NoteRules::note_rules))]

mod parts;
mod stages;

pub use stages::{fault_note, flattening_note, lex_note, parse_note, unsolvable_note};
