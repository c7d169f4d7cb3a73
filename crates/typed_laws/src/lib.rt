//! What is read from a text fits the flat design whose names it was read with. The function here is a law, which is proved and
//! does nothing when it runs.
#![tactic(auto)]

ghost use Rattle.typed_laws.specs.Laws.{ReadExpressionsAreTyped};

/// An expression that keeps the rules is well typed in the flat design.
pub fn read_expressions_are_typed()
    ensures { ReadExpressionsAreTyped }
{}
