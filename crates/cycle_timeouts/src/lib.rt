//! The timeouts behind a cycle. The function here is a law, which is proved and does nothing when it runs.
#![tactic(auto)]

ghost use Rattle.cycle_timeouts.specs.Entered.{TimeoutsAreEntered};

/// Where the times that are due are taken out, and then the timeouts of the processes that ran are entered, the times are the timeouts of
/// the states behind the cycle.
pub fn timeouts_are_entered()
    ensures { TimeoutsAreEntered }
{}
