//! Branches of simultaneous statements. The function here is a law, which is proved and does nothing when it runs.
#![tactic(auto)]

ghost use Rattle.length_laws.specs.Lengths.{BranchesHaveOneLength};

/// Where no rule is broken, branches have one number of equations, and the statement is an equation of a well-formed design.
pub fn branches_have_one_length()
    ensures { BranchesHaveOneLength }
{}
