//! Expressions that are parts of the statements of a process are what a well-formed design asks of them. The function here is a
//! law, which is proved and does nothing when it runs.
#![tactic(auto)]

ghost use Rattle.part_laws.specs.Parts.{ProcessPartsFit};

/// An expression of a process that is read where one of a type must or may stand is of that type, and sees its variables.
pub fn process_parts_fit()
    ensures { ProcessPartsFit }
{}
