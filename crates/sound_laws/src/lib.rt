//! What is known of a value before the run is a value of the expression's type. The function here is a law, which is proved and
//! does nothing when it runs.
#![tactic(auto)]

ghost use Rattle.sound_laws.specs.Sound.{KnownValuesAreOfTheirTypes};

/// A value that is known before the run is of its expression's type, and in the range of it.
pub fn known_values_are_of_their_types()
    ensures { KnownValuesAreOfTheirTypes }
{}
