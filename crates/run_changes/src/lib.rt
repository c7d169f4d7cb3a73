//! What the runs of processes change of a world, and that nothing they leave stands before the time. The functions here are
//! laws, which are proved and do nothing when they run.
#![tactic(auto)]

ghost use Rattle.run_laws.specs.Changes.{RunsChange, StartsChange};
ghost use Rattle.run_laws.specs.Times.{
  BegunIsLate,
  CycleIsLate,
  NextIsNotBefore,
  RunsAreLate,
  StartIsLate,
  StartsAreLate,
};

/// Runs change neither signals nor thresholds nor DOMAIN, and the events that they give can be printed.
pub fn runs_change_drivers_and_breaks_alone()
    ensures runs { RunsChange }
    ensures starts { StartsChange }
{}

/// No transaction and no timeout that runs leave stands before the time at which they ran, so none does behind a cycle.
pub fn nothing_stands_before_the_time()
    ensures begun { BegunIsLate }
    ensures runs { RunsAreLate }
    ensures starts { StartsAreLate }
    ensures start { StartIsLate }
    ensures cycle { CycleIsLate }
    ensures next { NextIsNotBefore }
{}
