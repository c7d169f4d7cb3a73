//! Generics and ports read twice, as the check of types reads them and at an instance. The function here is a law, which is proved
//! and does nothing when it runs.
#![tactic(auto)]

ghost use Rattle.alike_interfaces.specs.Interfaces.{InterfacesFollow};

/// Where the check breaks no rule in the interface of an entity, its names stand for alike things at an instance, which breaks no
/// rule but such as the walk asks for.
pub fn interfaces_follow()
    ensures { InterfacesFollow }
{}
