//! Simultaneous statements that are read make equations of a well-formed design. The function here is a law, which is proved and
//! does nothing when it runs.
#![tactic(auto)]

ghost use Rattle.equation_laws.specs.Equations.{StatementsMakeEquations};

/// A simple simultaneous statement and a simultaneous if make equations whose sides are REAL and whose branches have one size.
pub fn statements_make_equations()
    ensures { StatementsMakeEquations }
{}
