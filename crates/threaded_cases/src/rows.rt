//! Two worked rows: what is listed of a design, and the lines of its events.

ghost use Rattle.std.specs.Prelude.{◌≤◌, ◌<◌, length, IfOk};
ghost use Rattle.step_data.specs.Options.{IsAllowed};

use ams_value::Val;
use fix_core::{Fix, Tick};
use listed_models::{CycleRow, Given, Levels, SolutionRow, StepAnswer, StepRow};
use message_codes::VALUE_DIVIDE_BY_ZERO;
use std::alloc::{AllocError, Global};
use step_data::{BreakList, Cause, Options};
use threaded_rows::Listing;

/// Which row.
#[derive(Clone, Copy, Debug, PartialEq, Eq)]
pub enum Row {
    /// What equations read changes at 12 ns with a break, before a pole at 20 ns.
    BreakBeforeAPole,
    /// Nothing changes: the attempt at the pole fails, and ends the run.
    FailedAttempt,
}

impl Row {
    /// The lines of the events.
    pub fn lines(self) -> &'static str {
        match self {
            Row::BreakBeforeAPole => {
                "B 0 0\nP 0 1 0.05\nD 0 2\nP 5000 0 0.066666666667\nP 10000 0 0.1\nP 12000 0 0.125\nS 12000 0 0 50.0\nB 12000 0\nP 12000 1 0.026315789474\nP 17000 0 0.030303030303\nP 22000 0 0.035714285714\nP 25000 0 0.04\n"
            }
            Row::FailedAttempt => {
                "B 0 0\nP 0 1 0.05\nD 0 2\nP 5000 0 0.066666666667\nP 10000 0 0.1\nP 15000 0 0.2\n"
            }
        }
    }
}

/// A step from a time, of so many ticks, to a value in units of 10^-12, or to a zero divisor.
type Step = (u64, u64, Option<i64>);

const STEPS: &[Step] = &[
    (0, 5000, Some(66_666_666_667)),
    (5000, 5000, Some(100_000_000_000)),
    (10_000, 5000, Some(200_000_000_000)),
    (15_000, 5000, None),
    (10_000, 2000, Some(125_000_000_000)),
    (12_000, 5000, Some(30_303_030_303)),
    (17_000, 5000, Some(35_714_285_714)),
    (22_000, 3000, Some(40_000_000_000)),
];

/// A time; one that is too great is taken for 0.
fn tick_of(t: u64) -> Tick {
    match Tick::new(t) {
        Some(t) => t,
        None => Tick::new(0).unwrap(),
    }
}

fn fixed(units: i64) -> Fix {
    Fix::exactly(i128::from(units))
}

fn step_row(step: &Step) -> StepRow {
    let (from, size, units) = *step;
    let answer = match units {
        Some(units) => StepAnswer::Landed {
            value: fixed(units),
            err: 0,
        },
        None => StepAnswer::Refused(Cause {
            code: VALUE_DIVIDE_BY_ZERO,
            column: 0,
        }),
    };
    StepRow {
        from: tick_of(from),
        size,
        answer,
    }
}

fn solution_row(solution: &(u64, i64)) -> SolutionRow {
    let (t, units) = *solution;
    SolutionRow {
        at: tick_of(t),
        value: fixed(units),
    }
}

/// A cycle that gives this, with a break, and then a time at which something is pending and what equations read.
fn cycle_row(
    alloc: Global,
    given: &[Given],
    broke: bool,
    next: Option<u64>,
    read: i64,
) -> Result<CycleRow, AllocError> {
    Ok(CycleRow {
        given: given.to_vec(alloc)?,
        broke,
        breaks: BreakList::new(alloc),
        next: match next {
            Some(t) => Tick::new(t),
            None => None,
        },
        value: Val::Real(fixed(read)),
        levels: Levels::new(alloc),
    })
}

const LOW: i64 = 20_000_000_000_000;

const HIGH: i64 = 50_000_000_000_000;

fn cycles_of(alloc: Global, row: Row) -> Result<Vec<CycleRow>, AllocError>
    ensures { IfOk result (λ cycles. 1 ≤ length cycles.items) }
{
    let next = match row {
        Row::BreakBeforeAPole => Some(12_000),
        Row::FailedAttempt => None,
    };
    let mut cycles = Vec::new(alloc);
    cycles.push(cycle_row(alloc, &[Given::Broke { element: None }], true, next, LOW)?)?;
    cycles.push(cycle_row(alloc, &[], false, next, LOW)?)?;
    cycles.push(cycle_row(alloc, &[Given::Domain], false, next, LOW)?)?;
    let high = Given::Signal {
        value: Val::Real(fixed(HIGH)),
    };
    cycles.push(cycle_row(
        alloc,
        &[high, Given::Broke { element: None }],
        true,
        None,
        HIGH,
    )?)?;
    cycles.push(cycle_row(alloc, &[], false, None, HIGH)?)?;
    Ok(cycles)
}

/// The stop time is 25 ns, and each step 5 ns.
fn options_of(ahead: u32) -> Options
    requires { ahead ≤ 4096 }
    ensures { IsAllowed result }
{
    Options {
        stop: Tick::new(25_000).unwrap(),
        ahead,
        h0: 5000,
        hmin: 5000,
        hmax: 5000,
        tol: 1_000_000,
        ltol: 1_000_000_000,
        xres: 1,
    }
}

/// What is listed of a row, with at most so many saved attempts.
pub fn listing_of(alloc: Global, row: Row, ahead: u32) -> Result<Listing, AllocError>
    requires { ahead ≤ 4096 }
    ensures some { IfOk result (λ listing. 1 ≤ length listing.cycles.items) }
    ensures allowed { IfOk result (λ listing. IsAllowed listing.options) }
{
    let steps: Vec<StepRow> = STEPS.iter().map(step_row).collect(alloc)?;
    let solutions: Vec<SolutionRow> = [(0, 50_000_000_000), (12_000, 26_315_789_474)]
        .iter()
        .map(solution_row)
        .collect(alloc)?;
    let cycles = cycles_of(alloc, row)?;
    Ok(Listing {
        steps,
        solutions,
        cycles,
        reads: true,
        options: options_of(ahead),
    })
}
