//! The rows under gates. Each count that the order settles is that of the row under the same order of steps.

ghost use Rattle.std.specs.Prelude.{◌≤◌};

use crate::rows::{Row, listing_of};
use fix_core::Tick;
use message_codes::{STEP_TOO_SMALL, VALUE_DIVIDE_BY_ZERO};
use port_io::MemSink;
use runahead_worker::{Gate, Open, Place};
use std::alloc::Global;
use std::process::Abort;
use std::sync::Wait;
use std::test::Fail;
use std::thread::Threads;
use step_data::{End, Refusal};
use threaded_rows::{Hold, Holds, Told, run_listed};
use timeline::Counts;
use trace_sink::TraceFault;

/// The engine waits behind each begin until all attempts are saved that can be.
const SAVED: &[Hold] = &[
    Hold {
        at: Place::Move,
        time: 5,
        until: Place::Published,
        count: 4,
    },
    Hold {
        at: Place::Move,
        time: 12,
        until: Place::Published,
        count: 6,
    },
];

/// The engine waits for one attempt.
const ONE: &[Hold] = &[Hold {
    at: Place::Move,
    time: 5,
    until: Place::Published,
    count: 1,
}];

/// The worker has its first job until the engine has begun anew.
const LATE: &[Hold] = &[
    Hold {
        at: Place::Move,
        time: 5,
        until: Place::Taken,
        count: 1,
    },
    Hold {
        at: Place::Taken,
        time: 1,
        until: Place::Move,
        count: 12,
    },
];

/// The end of a run that comes to its stop time.
fn reached() -> Result<End, Fail> {
    let stop = Tick::new(25_000).ok_or("no tick")?;
    Ok(End::Reached(stop))
}

/// Runs a row under a gate.
fn told<G: Gate, R: Threads + Wait + Sync>(
    rt: &R,
    alloc: Global,
    row: Row,
    limit: u32,
    ahead: bool,
    gate: &G,
) -> Result<Told, Fail>
    requires { limit ≤ 4096 }
{
    let listing = listing_of(alloc, row, limit)?;
    let trace = MemSink::new(alloc, Vec::new(alloc));
    let told = run_listed(rt, alloc, listing, ahead, trace, gate)?;
    Ok(told)
}

/// The lines are those of the row, and the end is the one that is wanted.
fn agrees(rt: &impl Abort, told: &Told, row: Row, end: End) {
    assert_eq!(rt; told.trace.bytes(), row.lines().as_bytes());
    assert_eq!(rt; told.ended, Ok(end));
}

#[test]
fn saved_attempts_are_there_when_the_engine_looks(rt: HostRuntime) -> Result<(), Fail> {
    for limit in [64, 4096] {
        let holds = Holds::new(SAVED);
        let told = told(&rt, rt.alloc(), Row::BreakBeforeAPole, limit, true, &holds)?;
        assert!(&rt; !holds.gave_up());
        agrees(&rt, &told, Row::BreakBeforeAPole, reached()?);
        let counts = Counts {
            begins: 2,
            taken: 6,
            saved: 6,
            stale: 0,
            reused: 4,
            closed: 1,
        };
        assert_eq!(&rt; told.counts, counts);
        assert_eq!(&rt; told.own, 0);
    }
    Ok(())
}

#[test]
fn a_failed_attempt_that_was_saved_ends_the_run(rt: HostRuntime) -> Result<(), Fail> {
    let holds = Holds::new(SAVED);
    let told = told(&rt, rt.alloc(), Row::FailedAttempt, 64, true, &holds)?;
    let t = Tick::new(20_000).ok_or("no tick")?;
    let refusal = Refusal {
        code: STEP_TOO_SMALL,
        detail: Some(u32::from(VALUE_DIVIDE_BY_ZERO)),
    };
    agrees(&rt, &told, Row::FailedAttempt, End::Refused { t, refusal });
    let counts = Counts {
        begins: 1,
        taken: 4,
        saved: 4,
        stale: 0,
        reused: 4,
        closed: 1,
    };
    assert_eq!(&rt; told.counts, counts);
    assert_eq!(&rt; told.own, 0);
    Ok(())
}

/// With room for one attempt the engine finds it, where it waits for it. With no room it finds none.
#[test]
fn small_limits(rt: HostRuntime) -> Result<(), Fail> {
    let holds = Holds::new(ONE);
    let one = told(&rt, rt.alloc(), Row::BreakBeforeAPole, 1, true, &holds)?;
    assert!(&rt; !holds.gave_up());
    agrees(&rt, &one, Row::BreakBeforeAPole, reached()?);
    assert!(&rt; one.counts.reused >= 1);
    let none = told(&rt, rt.alloc(), Row::BreakBeforeAPole, 0, true, &Open)?;
    agrees(&rt, &none, Row::BreakBeforeAPole, reached()?);
    let counts = Counts {
        begins: none.counts.begins,
        taken: 0,
        saved: 0,
        stale: 0,
        reused: 0,
        closed: 1,
    };
    assert_eq!(&rt; none.counts, counts);
    assert_eq!(&rt; none.own, 4);
    Ok(())
}

/// The worker has a job in its hand while the engine looks, makes that attempt itself and begins anew: so the lock is free
/// meanwhile, and what the worker publishes is stale.
#[test]
fn the_lock_is_free_while_an_attempt_is_made(rt: HostRuntime) -> Result<(), Fail> {
    let holds = Holds::new(LATE);
    let told = told(&rt, rt.alloc(), Row::BreakBeforeAPole, 64, true, &holds)?;
    assert!(&rt; !holds.gave_up());
    agrees(&rt, &told, Row::BreakBeforeAPole, reached()?);
    assert!(&rt; told.counts.stale >= 1);
    assert!(&rt; told.own >= 1);
    Ok(())
}

#[test]
fn without_a_worker_the_trace_is_the_same(rt: HostRuntime) -> Result<(), Fail> {
    let told = told(&rt, rt.alloc(), Row::BreakBeforeAPole, 64, false, &Open)?;
    agrees(&rt, &told, Row::BreakBeforeAPole, reached()?);
    let counts = Counts {
        begins: told.counts.begins,
        taken: 0,
        saved: 0,
        stale: 0,
        reused: 0,
        closed: 0,
    };
    assert_eq!(&rt; told.counts, counts);
    assert_eq!(&rt; told.own, 4);
    Ok(())
}

/// Whoever comes first, the trace is the same, and each attempt was found or made.
#[test]
fn no_order_changes_the_trace(rt: HostRuntime) -> Result<(), Fail> {
    for _ in 0..50 {
        for limit in [1, 2, 64] {
            let told = told(&rt, rt.alloc(), Row::BreakBeforeAPole, limit, true, &Open)?;
            agrees(&rt, &told, Row::BreakBeforeAPole, reached()?);
            assert_eq!(&rt; told.own.checked_add(told.counts.reused), Some(4));
        }
    }
    Ok(())
}

/// A write fails: the run ends with it, a front of the lines was written, and the worker was told that the line is closed.
#[test]
fn a_write_fault_closes_the_line(rt: HostRuntime) -> Result<(), Fail> {
    for call in [1, 3, 7, 12] {
        let alloc = rt.alloc();
        let listing = listing_of(alloc, Row::BreakBeforeAPole, 64)?;
        let trace = MemSink::new(alloc, [call].to_vec(alloc)?);
        let told = run_listed(&rt, alloc, listing, true, trace, &Open)?;
        assert_eq!(&rt; told.ended, Err(TraceFault::WriteFault));
        let lines = Row::BreakBeforeAPole.lines().as_bytes();
        assert!(&rt; lines.starts_with(told.trace.bytes()));
        assert_eq!(&rt; told.counts.closed, 1);
    }
    Ok(())
}
