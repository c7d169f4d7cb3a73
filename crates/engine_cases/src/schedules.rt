//! Each design is run by the core after many schedules of the engine's and the worker's steps: the events and the end are those of
//! the row, which were found by hand for the engine alone.

use crate::rows::{BREAK, FAILURE_AHEAD, Line, REFUSED_SIDE_STEP, Row};
use crate::tests::{cycles_of, line_of, options_of, solution_row, step_row, tick};
use core_rows::{Replayed, replay};
use listed_models::{SolutionRow, StepRow};
use std::alloc::Global;
use std::process::Abort;
use std::test::Fail;
use step_data::{End, EventList};
use step_schedule::{Step, schedule};

const SCHEDULES: u64 = 200;

const LETTERS: u32 = 400;

/// Runs a row by the core with at most so many saved attempts, the steps of a schedule first. The events are those that it
/// wants, and the run reaches the stop time.
fn replayed(
    rt: &impl Abort,
    alloc: Global,
    row: &Row,
    ahead: u32,
    schedule: &[Step],
) -> Result<Replayed, Fail> {
    let steps: Vec<StepRow> = row.steps.iter().map(step_row).collect(alloc)?;
    let solutions: Vec<SolutionRow> = row.solutions.iter().map(solution_row).collect(alloc)?;
    let cycles = cycles_of(alloc, row.cycles)?;
    let options = options_of(row, ahead).ok_or("options")?;
    assert!(rt; cycles.len() >= 1);
    let mut out = EventList::new(alloc);
    let replayed = replay(
        alloc,
        steps.as_slice(),
        solutions.as_slice(),
        cycles,
        row.reads,
        options,
        schedule,
        &mut out,
    )?;
    let lines: Vec<Line> = out.as_slice().iter().map(line_of).collect(alloc)?;
    assert_eq!(rt; lines.as_slice(), row.lines);
    let stop = tick(row.stop)?;
    assert_eq!(rt; replayed.end, End::Reached(stop));
    Ok(replayed)
}

/// What was met in some run.
#[derive(Clone, Copy, Debug, Default, PartialEq, Eq)]
struct Met {
    /// An attempt that was found.
    reused: bool,
    /// One that was saved and never found, since it was withdrawn.
    withdrawn: bool,
    /// One that was published too late.
    stale: bool,
}

impl Met {
    fn note(&mut self, replayed: &Replayed) {
        let counts = &replayed.counts;
        self.reused = self.reused || counts.reused > 0;
        self.withdrawn = self.withdrawn || counts.saved > counts.reused;
        self.stale = self.stale || counts.stale > 0;
    }
}

/// Runs a row after each schedule, with at most so many saved attempts.
fn replay_all(rt: &impl Abort, alloc: Global, row: &Row, ahead: u32) -> Result<Met, Fail> {
    let mut met = Met::default();
    for seed in 0..SCHEDULES {
        let steps = schedule(alloc, seed, LETTERS)?;
        let replayed = replayed(rt, alloc, row, ahead, steps.as_slice())?;
        met.note(&replayed);
    }
    Ok(met)
}

const ALL: Met = Met {
    reused: true,
    withdrawn: true,
    stale: true,
};

#[test]
fn a_break_withdraws_what_was_saved(rt: HostRuntime) -> Result<(), Fail> {
    let met = replay_all(&rt, rt.alloc(), &BREAK, 64)?;
    assert_eq!(&rt; met, ALL);
    Ok(())
}

#[test]
fn a_refused_side_step_withdraws_what_was_saved(rt: HostRuntime) -> Result<(), Fail> {
    let met = replay_all(&rt, rt.alloc(), &REFUSED_SIDE_STEP, 64)?;
    assert_eq!(&rt; met, ALL);
    Ok(())
}

#[test]
fn a_failure_ahead_never_appears(rt: HostRuntime) -> Result<(), Fail> {
    let met = replay_all(&rt, rt.alloc(), &FAILURE_AHEAD, 64)?;
    assert_eq!(&rt; met, ALL);
    Ok(())
}

#[test]
fn one_saved_attempt_changes_nothing(rt: HostRuntime) -> Result<(), Fail> {
    replay_all(&rt, rt.alloc(), &BREAK, 1)?;
    replay_all(&rt, rt.alloc(), &REFUSED_SIDE_STEP, 1)?;
    replay_all(&rt, rt.alloc(), &FAILURE_AHEAD, 1)?;
    Ok(())
}

#[test]
fn no_saved_attempt_leaves_none_to_find(rt: HostRuntime) -> Result<(), Fail> {
    let met = replay_all(&rt, rt.alloc(), &BREAK, 0)?;
    assert_eq!(&rt; met, Met::default());
    Ok(())
}
