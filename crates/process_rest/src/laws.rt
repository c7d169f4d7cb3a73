//! A process is ready for its next run.
ghost use Rattle.process_rest.specs.Resting.{GoesOnReady, RestsReady, StartsReady};

/// Before its first run a process of a well-formed design is ready at its first statement.
#[tactic(auto, using(crate::proofs::ReadyAgain::starts_ready))]
pub fn processes_start_ready()
    ensures { StartsReady }
{}

/// Where it waits, it is ready with the variables that it keeps.
#[tactic(auto, using(crate::proofs::ReadyAgain::rests_ready))]
pub fn processes_rest_ready()
    ensures { RestsReady }
{}

/// So it is at a later time, in a world of the design.
#[tactic(auto, using(crate::proofs::ReadyAgain::goes_on_ready))]
pub fn processes_go_on_ready()
    ensures { GoesOnReady }
{}
