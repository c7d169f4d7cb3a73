//! Reading the statements of a process only adds to what is read of it so far. The function here is a law, which is proved and
//! does nothing when it runs.
#![tactic(auto)]

ghost use Rattle.draft_laws.specs.Drafts.{StatementsAdd};

/// Reading a sequential statement only adds to the draft of its process: notes, variables, drivers and waits keep their numbers.
pub fn statements_add_to_drafts()
    ensures { StatementsAdd }
{}
