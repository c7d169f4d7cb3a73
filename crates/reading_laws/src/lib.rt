//! What holds of each expression that is read from a text. The function here is a law, which is proved and does nothing when it
//! runs.
#![tactic(auto)]

ghost use Rattle.reading_laws.specs.Growing.{ReadingAddsNotes};

/// Reading an expression only adds to the notes: faults, dots and thresholds keep their numbers.
pub fn reading_adds_notes()
    ensures { ReadingAddsNotes }
{}
