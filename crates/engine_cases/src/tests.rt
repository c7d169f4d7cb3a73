//! Each worked row is run twice: the engine makes all attempts itself, and each look finds the attempt that another solver
//! made.

ghost use Rattle.std.specs.Prelude.{◌≤◌, ◌<◌, ◌+◌, ◌^◌, IfSome, IsTrue};
ghost use Rattle.step_data.specs.Options.{IsAllowed};

use crate::rows::{
    BREAK, Cycle, FAILED_ATTEMPT, FAILURE_AHEAD, Gives, Line, Move, ONE_CROSSING,
    REFUSED_SIDE_STEP, Row, Says, Step, TWO_CROSSINGS,
};
use ams_value::Val;
use engine_rows::{Looks, Shown, run};
use fix_core::{Fix, Tick};
use listed_models::{CycleRow, Given, Levels, SolutionRow, StepAnswer, StepRow};
use lockstep_model::{Ask, Moved};
use message_codes::STEP_TOO_SMALL;
use std::alloc::{AllocError, Global};
use std::process::Abort;
use std::test::Fail;
use step_data::{BreakList, Cause, Element, End, Event, EventList, Options, Refusal};

pub fn tick(t: u64) -> Result<Tick, Fail> {
    Ok(Tick::new(t).ok_or("no tick")?)
}

fn fixed(units: i64) -> Fix {
    Fix::exactly(i128::from(units))
}

fn signal_line(t: u64, n: u32, value: Val) -> Line {
    match value {
        Val::Bit(value) => Line::Bit { t, n, value },
        Val::Real(value) => Line::Real {
            t,
            n,
            units: value.units(),
        },
        _ => Line::Other,
    }
}

pub fn line_of(event: &Event) -> Line {
    match event {
        Event::Solved { t, n, x } => match x.as_slice() {
            [value] => Line::Point {
                t: t.get(),
                n: *n,
                units: value.units(),
            },
            _ => Line::Other,
        },
        Event::Domain { t, n } => Line::Domain { t: t.get(), n: *n },
        Event::Cross { t, n, k, on } => Line::Cross {
            t: t.get(),
            n: *n,
            k: *k,
            on: *on,
        },
        Event::Signal { t, n, value, .. } => signal_line(t.get(), *n, *value),
        Event::Broke { t, n, list } => Line::Broke {
            t: t.get(),
            n: *n,
            elements: list.len(),
        },
        Event::Report { .. } | Event::Branch { .. } => Line::Other,
    }
}

/// A time; one that is too great is taken for 0.
fn tick_of(t: u64) -> Tick {
    match Tick::new(t) {
        Some(t) => t,
        None => Tick::new(0).unwrap(),
    }
}

fn landed(from: u64, size: u64, value: Fix, err: u64) -> StepRow {
    StepRow {
        from: tick_of(from),
        size,
        answer: StepAnswer::Landed { value, err },
    }
}

fn risen(from: u64, size: u64) -> Fix
    requires { from + size < 2 ^ 33 }
{
    Fix::exactly(i128::from(from + size) * 1_000_000)
}

pub fn step_row(step: &Step) -> StepRow {
    match *step {
        Step::Landed {
            from,
            size,
            units,
            err,
        } => landed(from, size, fixed(units), err),
        Step::Refused { from, size, code } => StepRow {
            from: tick_of(from),
            size,
            answer: StepAnswer::Refused(Cause { code, column: 0 }),
        },
        Step::Risen { from, size } => {
            let from = u64::from(from);
            let size = u64::from(size);
            landed(from, size, risen(from, size), 0)
        }
    }
}

/// The element that sets the unknown to 0.
fn to_zero() -> Element {
    Element {
        selector: 0,
        quantity: 0,
        value: fixed(0),
    }
}

fn given_of(gives: &Gives) -> Given {
    match *gives {
        Gives::Domain => Given::Domain,
        Gives::Cross { k, on } => Given::Cross { k, on },
        Gives::Bit { value } => Given::Signal {
            value: Val::Bit(value),
        },
        Gives::Real { units } => Given::Signal {
            value: Val::Real(fixed(units)),
        },
        Gives::Break { elements: 0 } => Given::Broke { element: None },
        Gives::Break { .. } => Given::Broke {
            element: Some(to_zero()),
        },
    }
}

fn is_break(gives: &Gives) -> bool {
    matches!(*gives, Gives::Break { .. })
}

fn levels_of(alloc: Global, levels: &[(i64, bool)]) -> Result<Levels, AllocError> {
    let mut list = Levels::new(alloc);
    for (level, on) in levels {
        list.push(fixed(*level), *on)?;
    }
    Ok(list)
}

fn next_of(next: Option<u64>) -> Option<Tick> {
    match next {
        Some(t) => Tick::new(t),
        None => None,
    }
}

fn cycle_row(alloc: Global, cycle: &Cycle) -> Result<CycleRow, AllocError> {
    let given: Vec<Given> = cycle.given.iter().map(given_of).collect(alloc)?;
    Ok(CycleRow {
        given,
        broke: cycle.given.iter().any(is_break),
        breaks: BreakList::new(alloc),
        next: next_of(cycle.next),
        value: Val::Real(fixed(cycle.units)),
        levels: levels_of(alloc, cycle.levels)?,
    })
}

pub fn solution_row(solution: &(u64, i64)) -> SolutionRow {
    let (t, units) = *solution;
    SolutionRow {
        at: tick_of(t),
        value: fixed(units),
    }
}

pub fn cycles_of(alloc: Global, cycles: &[Cycle]) -> Result<Vec<CycleRow>, AllocError> {
    let mut rows = Vec::new(alloc);
    for cycle in cycles {
        rows.push(cycle_row(alloc, cycle)?)?;
    }
    Ok(rows)
}

fn is_allowed(row: &Row) -> bool
    ensures { IsTrue result → (1 ≤ row.now.stop) × (row.now.stop ≤ 1000000000000000) × (1 ≤ row.now.least) × (row.now.least ≤ row.now.first) × (row.now.first ≤ 1000000000000) × (1 ≤ row.now.ltol) × (row.now.ltol ≤ 1000000000000000) }
{
    1 <= row.stop
        && row.stop <= 1_000_000_000_000_000
        && 1 <= row.least
        && row.least <= row.first
        && row.first <= 1_000_000_000_000
        && 1 <= row.ltol
        && row.ltol <= 1_000_000_000_000_000
}

/// The options of a row, with at most so many saved attempts; the others are the defaults.
pub fn options_of(row: &Row, ahead: u32) -> Option<Options>
    ensures { IfSome result (λ options. IsAllowed options) }
{
    if ahead > 4096 || !is_allowed(row) {
        return None;
    }
    let stop = Tick::new(row.stop)?;
    Some(Options {
        stop,
        ahead,
        h0: row.first,
        hmin: row.least,
        hmax: row.first,
        tol: 1_000_000,
        ltol: row.ltol,
        xres: 1,
    })
}

fn moved(says: Says) -> Result<Moved, Fail> {
    match says {
        Says::None => Ok(Moved::Ask(Ask::None)),
        Says::Begin => Ok(Moved::Ask(Ask::Begin)),
        Says::Look { until } => {
            let until = tick(until)?;
            Ok(Moved::Ask(Ask::Look { until }))
        }
        Says::Consume => Ok(Moved::Ask(Ask::Consume)),
        Says::Reached { t } => {
            let t = tick(t)?;
            Ok(Moved::Ended(End::Reached(t)))
        }
        Says::StepTooSmall { t, cause } => {
            let t = tick(t)?;
            let refusal = Refusal {
                code: STEP_TOO_SMALL,
                detail: Some(u32::from(cause)),
            };
            Ok(Moved::Ended(End::Refused { t, refusal }))
        }
    }
}

fn push_wanted(shown: &mut Vec<Shown>, want: &Move) -> Result<(), Fail> {
    let (times, says, events, t, h, own, cycles) = *want;
    for _ in 0..times {
        let said = moved(says)?;
        let t = tick(t)?;
        shown.push(Shown {
            said,
            events,
            t,
            h,
            own,
            cycles,
        })?;
    }
    Ok(())
}

/// Runs a row, and gives what each move showed. The events are those that it wants.
fn shown_of(rt: &impl Abort, alloc: Global, row: &Row, looks: Looks) -> Result<Vec<Shown>, Fail> {
    let steps: Vec<StepRow> = row.steps.iter().map(step_row).collect(alloc)?;
    let solutions: Vec<SolutionRow> = row.solutions.iter().map(solution_row).collect(alloc)?;
    let cycles = cycles_of(alloc, row.cycles)?;
    let options = options_of(row, 64).ok_or("options")?;
    assert!(rt; cycles.len() >= 1);
    let mut out = EventList::new(alloc);
    let mut shown = Vec::new(alloc);
    run(
        alloc,
        steps.as_slice(),
        solutions.as_slice(),
        cycles,
        row.reads,
        options,
        looks,
        &mut out,
        &mut shown,
    )?;
    let lines: Vec<Line> = out.as_slice().iter().map(line_of).collect(alloc)?;
    assert_eq!(rt; lines.as_slice(), row.lines);
    Ok(shown)
}

/// Each move is the one that is wanted; where each look finds its attempt, no own one is made.
fn compare(rt: &impl Abort, alloc: Global, row: &Row) -> Result<(), Fail> {
    let shown = shown_of(rt, alloc, row, Looks::Nothing)?;
    let mut wanted = Vec::new(alloc);
    for want in row.moves {
        push_wanted(&mut wanted, want)?;
    }
    assert_eq!(rt; shown.as_slice(), wanted.as_slice());
    let found = shown_of(rt, alloc, row, Looks::Here)?;
    assert!(rt; found.as_slice().iter().all(|one| one.own == 0));
    Ok(())
}

#[test]
fn crossings_are_located(rt: HostRuntime) -> Result<(), Fail> {
    compare(&rt, rt.alloc(), &ONE_CROSSING)?;
    compare(&rt, rt.alloc(), &TWO_CROSSINGS)
}

#[test]
fn a_refused_side_step_halves_the_step(rt: HostRuntime) -> Result<(), Fail> {
    compare(&rt, rt.alloc(), &REFUSED_SIDE_STEP)
}

#[test]
fn a_break_settles_anew(rt: HostRuntime) -> Result<(), Fail> {
    compare(&rt, rt.alloc(), &BREAK)
}

#[test]
fn a_failure_ahead_is_never_met(rt: HostRuntime) -> Result<(), Fail> {
    compare(&rt, rt.alloc(), &FAILURE_AHEAD)
}

#[test]
fn a_failed_attempt_ends_the_run(rt: HostRuntime) -> Result<(), Fail> {
    compare(&rt, rt.alloc(), &FAILED_ATTEMPT)
}
