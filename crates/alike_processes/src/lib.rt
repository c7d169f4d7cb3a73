//! Concurrent and simultaneous statements that are read twice. The function here is a law, which is proved and does nothing when
//! it runs.
#![tactic(auto)]

ghost use Rattle.alike_processes.specs.Concurrent.{ConcurrentStatementsFollow};

/// Where the first of two readings breaks no rule, the second breaks none but such as an instance answers.
pub fn concurrent_statements_follow()
    ensures { ConcurrentStatementsFollow }
{}
