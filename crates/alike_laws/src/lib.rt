//! One text read twice, as the check of types reads it and at an instance. The functions here are laws, which are proved and do
//! nothing when they run.
#![tactic(auto)]

ghost use Rattle.alike_laws.specs.Alike.{ReadingsFollow, ScopesStayAlike};

/// Where the check breaks no rule in an expression, an instance breaks none but such as the walk asks for.
pub fn readings_follow()
    ensures { ReadingsFollow }
{}

/// Scopes whose names stand for alike things stay so.
pub fn scopes_stay_alike()
    ensures { ScopesStayAlike }
{}
