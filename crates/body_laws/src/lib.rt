//! Sequential statements that are read are what a well-formed design asks of them, at their places. The function here is a law,
//! which is proved and does nothing when it runs.
#![tactic(auto)]

ghost use Rattle.body_laws.specs.Bodies.{BodiesStand};

/// Each statement of a list that is read is allowed, its waits have their ways, the parameters of loops are safe and nest, and a
/// driver that it adds is of a signal that some statement assigns.
pub fn statements_stand()
    ensures { BodiesStand }
{}
