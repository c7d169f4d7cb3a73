//! The parts of a cycle put together: events are only added, and what the runs leave is kept. The functions here are laws, which are
//! proved and do nothing when they run.
#![tactic(auto)]

ghost use Rattle.cycle_parts.specs.Added.{RunsAddEvents, StartsAddEvents, CyclesAddEvents};
ghost use Rattle.cycle_parts.specs.Left.{EventsAreGivenBack, DomainStays, IsStateLeft};
ghost use Rattle.run_laws.specs.Changes.{RunsChange};
ghost use Rattle.run_laws.specs.Events.{RunsAlike, StartsAlike};

/// As runs don't read the events before them, these are at the front of those behind the runs, whether all ran or one was refused. So are
/// the events at the beginning of a cycle at the front of the cycle's, however it ends.
pub fn events_are_only_added()
    ensures runs { RunsAlike → RunsAddEvents }
    ensures starts { StartsAlike → StartsAddEvents }
    ensures cycles { RunsAlike → CyclesAddEvents }
{}

/// Events that were lent out and come back leave the process and its world as they were.
pub fn events_are_given_back()
    ensures { EventsAreGivenBack }
{}

/// As runs change drivers and breaks alone, DOMAIN is behind them what it was before.
pub fn domain_stays()
    ensures { RunsChange → DomainStays }
{}

/// The state that is known from objects, time, DOMAIN's turn, world and processes is that of a cycle whose runs left these.
pub fn state_is_left()
    ensures { IsStateLeft }
{}
