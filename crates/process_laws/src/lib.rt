//! A process goes on where it stopped: between two cycles there is only the number of its wait, the variables that it
//! declares, and the current and the last value of each loop round the wait; and that is enough. The functions here are
//! laws, which are proved and do nothing when they run.
#![tactic(auto)]

ghost use Rattle.process_laws.specs.Held.{HoldAgain, HoldAtStart, KeepsVariables, RunsAgain, UnseenBeginAgain};
ghost use Rattle.process_laws.specs.InText.{BegunIsInText, StepsStayInText, TurnsStayInText};
ghost use Rattle.process_laws.specs.Kept.{KeptAgain, KeptFromStart, KeptRuns};
ghost use Rattle.process_laws.specs.Resumed.{GoesOn, RunsOn, StandsAgain, StandsAtStart};

/// A run executes statements of its process's text alone, so what is promised of each of them holds where it begins.
pub fn processes_stay_in_their_text()
    ensures begun { BegunIsInText }
    ensures steps { StepsStayInText }
    ensures turns { TurnsStayInText }
{}

/// What is left of a process behind its wait can be told from the state between cycles.
pub fn processes_go_on_where_they_stopped()
    ensures start { StandsAtStart }
    ensures again { StandsAgain }
    ensures left { GoesOn }
    ensures on { RunsOn }
{}

/// So can the variables that it sees there.
pub fn processes_keep_what_they_see()
    ensures start { HoldAtStart }
    ensures again { HoldAgain }
    ensures seen { KeepsVariables }
    ensures unseen { UnseenBeginAgain }
{}

/// A process that keeps its own tasks and variables runs like one that is resumed from the state between cycles.
pub fn processes_may_keep_their_tasks()
    ensures { RunsAgain }
{}

/// The same as what a kernel keeps: tasks and variables that belong to the process's state, from its first run on.
pub fn kept_tasks_belong_to_the_state()
    ensures runs { KeptRuns }
    ensures again { KeptAgain }
    ensures start { KeptFromStart }
{}
