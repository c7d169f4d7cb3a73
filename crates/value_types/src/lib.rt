//! The value of a well-typed expression has its type, and lies in the range of it. The function here is a law, which is
//! proved and does nothing when it runs.
#![tactic(auto)]

ghost use Rattle.value_types.specs.Typing.{ReadValuesAreTyped, ValuesAreTyped};

/// The value of an expression is of the expression's type, and in its range.
pub fn values_are_typed()
    ensures whole { ValuesAreTyped }
    ensures read { ReadValuesAreTyped }
{}
