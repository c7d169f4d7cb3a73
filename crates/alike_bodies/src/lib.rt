//! Sequential statements that are read twice. The function here is a law, which is proved and does nothing when it runs.
#![tactic(auto)]

ghost use Rattle.alike_bodies.specs.Bodies.{BodiesFollow};

/// Where the first of two readings breaks no rule, the second breaks none but such as an instance answers.
pub fn bodies_follow()
    ensures { BodiesFollow }
{}
