//! What the walk over the instances keeps. The function here is a law, which is proved and does nothing when it runs.
#![tactic(auto)]

ghost use Rattle.walk_laws.specs.Walked.{WalkKeepsLimits};

/// The flat design of a walk keeps the limits that are tested where an instance is entered.
pub fn walk_keeps_limits()
    ensures { WalkKeepsLimits }
{}
