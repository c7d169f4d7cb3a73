//! Names are of types that are declared before them. The function here is a law, which is proved and does nothing when it runs.
#![tactic(auto)]

ghost use Rattle.declared_type_laws.specs.Types.{TypesAreDeclared};

/// The enumeration types of the names of a unit are among those that are declared so far.
pub fn types_are_declared()
    ensures { TypesAreDeclared }
{}
