//! What entering an instance leaves of the flat design so far. The function here is a law, which is proved and does nothing when it
//! runs.
#![tactic(auto)]

ghost use Rattle.object_laws.specs.Adding.{EnteringAddsObjects};

/// The interface and the declarations of an instance only add signals, quantities, nodes and enumeration types.
pub fn entering_adds_objects()
    ensures { EnteringAddsObjects }
{}
