//! Sequential statements that hold no others are what a well-formed design asks of them. The function here is a law, which is
//! proved and does nothing when it runs.
#![tactic(auto)]

ghost use Rattle.allowed_laws.specs.Simple.{SimpleStatementsAreAllowed};

/// Assignments, waits, assertions, reports and breaks that are read are those of a well-formed process.
pub fn simple_statements_are_allowed()
    ensures { SimpleStatementsAreAllowed }
{}
