//! Values that declarations give are values of their types and subtypes. The function here is a law, which is proved and does
//! nothing when it runs.
#![tactic(auto)]

ghost use Rattle.initial_laws.specs.Initial.{InitialValuesFit};

/// A static value, a value that a declaration writes, and the leftmost value of a subtype are of their types.
pub fn initial_values_fit()
    ensures { InitialValuesFit }
{}
