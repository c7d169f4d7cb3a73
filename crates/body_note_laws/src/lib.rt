//! What is noted of dots and thresholds while the statements of a process are read. The function here is a law, which is proved
//! and does nothing when it runs.
#![tactic(auto)]

ghost use Rattle.body_note_laws.specs.Bodies.{BodiesNoteAlike};

/// Two readings of the statements of a process note alike, and what is noted stays right.
pub fn bodies_note_alike()
    ensures { BodiesNoteAlike }
{}
