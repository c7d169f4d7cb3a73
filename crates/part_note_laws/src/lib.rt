//! What is noted of dots and thresholds while concurrent and simultaneous statements are read. The function here is a law, which
//! is proved and does nothing when it runs.
#![tactic(auto)]

ghost use Rattle.part_note_laws.specs.Parts.{EachNotesAlike};

/// Two readings of a statement note alike, and what is noted stays right.
pub fn statements_note_alike()
    ensures { EachNotesAlike }
{}
