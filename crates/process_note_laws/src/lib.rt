//! What is noted of dots and thresholds while the statements of an architecture are read. The function here is a law, which is
//! proved and does nothing when it runs.
#![tactic(auto)]

ghost use Rattle.process_note_laws.specs.Noted.{ConcurrentStatementsNoteAlike};

/// Two readings of a concurrent or simultaneous statement note alike, and what is noted stays right.
pub fn concurrent_statements_note_alike()
    ensures { ConcurrentStatementsNoteAlike }
{}
