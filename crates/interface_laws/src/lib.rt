//! The interface of an instance gives names that stand for things of the flat design. The function here is a law, which is proved
//! and does nothing when it runs.
#![tactic(auto)]

ghost use Rattle.interface_laws.specs.Requests.{InterfacesHold};

/// Generics and ports of an instance are right for the flat design, and so is what stands at its inner instances.
pub fn interfaces_hold()
    ensures { InterfacesHold }
{}
