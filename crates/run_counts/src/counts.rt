//! Counting events.
ghost use Rattle.std.specs.Prelude.{◌≡◌, ◌+◌, ◌<◌, ◌≤◌, ◌^◌, length};
ghost use Rattle.run_counts.specs.Counts.{points_at, signals_at, crossings_at, gained, gained_one, total};

use step_data::{End, Event};

/// How many events of each of these kinds there were. A run has fewer than 2^128 events, so no number reaches its end.
#[derive(Clone, Copy, Debug, PartialEq, Eq)]
pub struct EventCounts {
    pub points: u128,
    pub signals: u128,
    pub crossings: u128,
}

/// The numbers of a run.
#[derive(Clone, Copy, Debug, PartialEq, Eq)]
pub struct RunCounts {
    pub events: EventCounts,
    pub attempts: u64,
}

/// The numbers of a run, and its end.
#[derive(Clone, Copy, Debug, PartialEq, Eq)]
pub struct CountedRun {
    pub counts: RunCounts,
    pub end: End,
}

/// Counts an event.
fn count_event(counts: &mut EventCounts, event: &Event)
    requires { total counts.old + 1 < 2 ^ 128 }
    ensures { counts.new ≡ gained_one counts.old event.now }
{
    match event {
        Event::Solved { .. } => counts.points += 1,
        Event::Signal { .. } => counts.signals += 1,
        Event::Cross { .. } => counts.crossings += 1,
        Event::Domain { .. } | Event::Broke { .. } | Event::Report { .. } | Event::Branch { .. } =>
            {}
    }
}

/// Counts these events.
pub fn count_events(counts: &mut EventCounts, events: &[Event])
    requires { total counts.old + length events.now < 2 ^ 128 }
    ensures { counts.new ≡ gained counts.old events.now }
{
    for event in events {
        count_event(counts, event);
    }
}
