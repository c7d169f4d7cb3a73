//! Enumeration types of expressions. The function here is a law, which is proved and does nothing when it runs.
#![tactic(auto)]

ghost use Rattle.kind_laws.specs.Kinds.{KindsAreCounted};

/// The enumeration type of an expression has as many literals where it is read as in the design, if those of names have.
pub fn kinds_are_counted()
    ensures { KindsAreCounted }
{}
