//! What is noted while the statements of an architecture are read. The function here is a law, which is proved and does nothing
//! when it runs.
#![tactic(auto)]

ghost use Rattle.architecture_note_laws.specs.Statements.{ArchitecturesNoteAlike};

/// Two readings of the statements of an architecture note alike, and what is noted stays right.
pub fn architectures_note_alike()
    ensures { ArchitecturesNoteAlike }
{}
