//! Two readings of the statements of a process break the same rules. The function here is a law, which is proved and does nothing
//! when it runs.
#![tactic(auto)]

ghost use Rattle.again_body_laws.specs.Bodies.{BodiesBreakAlike};

/// The faults that sequential statements add are the same, whatever is noted before them.
pub fn bodies_break_alike()
    ensures { BodiesBreakAlike }
{}
