//! The timeouts that are entered are those of the states.
ghost use Rattle.timeout_entry.specs.Kept.{StartsAreEntered, RunsAreEntered};

use cycle_timeouts::timeouts_are_entered;

/// Behind the runs of a cycle the agenda has the timeouts of the new states, where what was due was taken out before and what is kept of the
/// processes that ran is entered. So it has behind the first runs. It is proved, and does nothing when it runs.
pub fn entered_timeouts_are_of_states()
    ensures starts { StartsAreEntered }
    ensures runs { RunsAreEntered }
{
    timeouts_are_entered();
}
