//! Two readings of one expression break the same rules. The function here is a law, which is proved and does nothing when it runs.
#![tactic(auto)]

ghost use Rattle.again_laws.specs.Again.{ExpressionsBreakAlike};

/// The faults that an expression adds are the same, whatever is noted before it.
pub fn expressions_break_alike()
    ensures { ExpressionsBreakAlike }
{}
