//! Concurrent and simultaneous statements that are read make processes and equations of a well-formed design. The function here is
//! a law, which is proved and does nothing when it runs.
#![tactic(auto)]

ghost use Rattle.concurrent_laws.specs.Concurrent.{ConcurrentStatementsAreMade};

/// What a concurrent or simultaneous statement makes is a process or an equation of a well-formed design.
pub fn concurrent_statements_are_made()
    ensures { ConcurrentStatementsAreMade }
{}
