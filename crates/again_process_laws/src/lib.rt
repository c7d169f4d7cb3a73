//! Two readings of a statement of an architecture break the same rules. The function here is a law, which is proved and does
//! nothing when it runs.
#![tactic(auto)]

ghost use Rattle.again_process_laws.specs.Statements.{StatementsBreakAlike};

/// The faults that a statement of an architecture adds are the same, whatever is noted before it.
pub fn statements_break_alike()
    ensures { StatementsBreakAlike }
{}
