//! Statements that are read twice: in the check of types, and at an instance. The function here is a law, which is proved and
//! does nothing when it runs.
#![tactic(auto)]

ghost use Rattle.alike_parts.specs.Follows.{EachFollows};

/// Where the first of two readings breaks no rule, the second breaks none but such as an instance answers.
pub fn statements_follow()
    ensures { EachFollows }
{}
