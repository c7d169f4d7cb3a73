//! Sequential statements that are read, and parts of them, are what a well-formed design asks of them. The function here is a law,
//! which is proved and does nothing when it runs.
#![tactic(auto)]

ghost use Rattle.statement_laws.specs.Statements.{StatementPartsFit};

/// Exits, conditions of assertions, delay mechanisms and waveforms that are read are those of a well-formed process.
pub fn statement_parts_fit()
    ensures { StatementPartsFit }
{}
