//! A run does not read the events before it. The function here is a law, which is proved and does nothing when it runs.
#![tactic(auto)]

ghost use Rattle.run_laws.specs.Events.{ResumesAlike, RunAlike, RunsAlike, StartsAlike};

/// Behind earlier events processes resume and run alike, and their events come behind those.
pub fn runs_do_not_read_events()
    ensures resumes { ResumesAlike }
    ensures run { RunAlike }
    ensures runs { RunsAlike }
    ensures starts { StartsAlike }
{}
