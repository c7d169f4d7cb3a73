//! At an instance subtypes have bounds in the ranges of their types, and the values that declarations give are values of their
//! subtypes. The function here is a law, which is proved and does nothing when it runs.
#![tactic(auto)]

ghost use Rattle.subtype_laws.specs.Subtypes.{SubtypesFit};

/// A subtype that keeps the rules fits, and so does a value that a declaration gives for it.
pub fn subtypes_fit()
    ensures { SubtypesFit }
{}
