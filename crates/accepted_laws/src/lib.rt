//! A flat design that is accepted is well formed. The function here is a law, which is proved and does nothing when it runs.
#![tactic(auto)]

ghost use Rattle.accepted_laws.specs.Accepted.{AcceptedAreDesigns};

/// The flat design of a text in which no rule is broken and no count fails is a well-formed design.
pub fn accepted_are_designs()
    ensures { AcceptedAreDesigns }
{}
