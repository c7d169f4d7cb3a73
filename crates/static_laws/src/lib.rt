//! What is known of a value before the run is what it is during the run. The function here is a law, which is proved and does
//! nothing when it runs.
#![tactic(auto)]

ghost use Rattle.static_laws.specs.Known.{KnownValuesAreValues};

/// A value that is known before the run is the value of its expression, whatever is read.
pub fn known_values_are_values()
    ensures { KnownValuesAreValues }
{}
