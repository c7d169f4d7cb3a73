//! Two readings of a concurrent or simultaneous statement break the same rules. The function here is a law, which is proved and does
//! nothing when it runs.
#![tactic(auto)]

ghost use Rattle.again_part_laws.specs.Parts.{PartsBreakAlike};

/// The faults that a statement adds are the same, whatever is noted before it.
pub fn parts_break_alike()
    ensures { PartsBreakAlike }
{}
