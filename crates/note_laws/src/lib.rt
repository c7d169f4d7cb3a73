//! What is noted of dots and thresholds while an expression is read. The function here is a law, which is proved and does nothing
//! when it runs.
#![tactic(auto)]

ghost use Rattle.note_laws.specs.Noting.{ReadingsNoteAlike};

/// What is noted stays right, each dot and threshold once, and two readings of one expression note the same.
pub fn readings_note_alike()
    ensures { ReadingsNoteAlike }
{}
