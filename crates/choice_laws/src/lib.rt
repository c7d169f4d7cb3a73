//! The choices of a case are those that a well-formed design has. The function here is a law, which is proved and does nothing
//! when it runs.
#![tactic(auto)]

ghost use Rattle.choice_laws.specs.Choices.{ChoicesAreRight};

/// Choices are values of the type, none twice, and name all of them or others; a simultaneous case makes an equation.
pub fn choices_are_right()
    ensures { ChoicesAreRight }
{}
