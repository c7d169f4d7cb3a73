//! At an instance each value that is asked before the run is known, where no rule is broken. The function here is a law, which is
//! proved and does nothing when it runs.
#![tactic(auto)]

ghost use Rattle.asked_laws.specs.Asked.{AskedValuesAreKnown};

/// A static value that is asked is known and of its type, in a scope whose constants have their values.
pub fn asked_values_are_known()
    ensures { AskedValuesAreKnown }
{}
