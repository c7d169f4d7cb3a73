//! Associations of an instance that are read twice, and terminals among their actuals. The function here is a law, which is
//! proved and does nothing when it runs.
#![tactic(auto)]

ghost use Rattle.alike_maps.specs.Maps.{AssociationsFollow};

/// Where the first of two readings breaks no rule, the second breaks none but such as an instance answers, and terminals have
/// the natures of their ports.
pub fn associations_follow()
    ensures { AssociationsFollow }
{}
