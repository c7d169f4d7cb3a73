//! The texts of names and strings of a text are lines. The function here is a law, which is proved and does nothing when it runs.
#![tactic(auto)]

ghost use Rattle.text_laws.specs.Lines.{TextsAreLines};

/// Each text of the table of names is a line of ASCII.
pub fn texts_are_lines()
    ensures { TextsAreLines }
{}
