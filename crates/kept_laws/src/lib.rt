//! What reading an expression breaks, and that it keeps what breaks no rule. The function here is a law, which is proved and does
//! nothing when it runs.
#![tactic(auto)]

ghost use Rattle.kept_laws.specs.Kept.{ReadingsKeep};

/// What an expression breaks doesn't depend on what is noted before it; where it breaks no rule, it is found.
pub fn readings_keep()
    ensures { ReadingsKeep }
{}
