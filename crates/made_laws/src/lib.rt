//! Processes that are read are what a well-formed design asks of them. The function here is a law, which is proved and does
//! nothing when it runs.
#![tactic(auto)]

ghost use Rattle.made_laws.specs.Made.{ProcessesAreMade};

/// A process, a concurrent assertion and a concurrent break that are read make processes of a well-formed design.
pub fn processes_are_made()
    ensures { ProcessesAreMade }
{}
