//! A timeline with room for one attempt, and one whose stop time is the end of the first: what each call notes.

ghost use Rattle.std.specs.Prelude.{◌≤◌};
ghost use Rattle.step_data.specs.Options.{IsAllowed};

use crate::tests::tick;
use core_rows::{Asked, ask_all};
use fix_core::{Fix, Tick};
use listed_models::{StepAnswer, StepRow};
use std::alloc::Global;
use std::process::Abort;
use std::test::Fail;
use step_data::Options;
use timeline::{Call, Note, Who};

const TAKEN: u8 = 0;

const SAVED: u8 = 0;

const HERE: u8 = 0;

const CLOSED: u8 = 1;

const STALE: u8 = 1;

const NOTHING: u8 = 1;

const IDLE: u8 = 2;

const ENDED: u8 = 3;

const FULL: u8 = 4;

fn engine(call: Call, reply: u8) -> Note {
    Note {
        who: Who::Engine,
        call,
        reply,
        begins: 1,
        len: 0,
        t: 0,
        h: 5000,
        end: 0,
    }
}

fn worker(call: Call, reply: u8) -> Note {
    let mut note = engine(call, reply);
    note.who = Who::Worker;
    note
}

fn ending(mut note: Note, end: u64) -> Note {
    note.end = end;
    note
}

fn holding(mut note: Note, len: u32) -> Note {
    note.len = len;
    note
}

fn from(mut note: Note, t: u64) -> Note {
    note.t = t;
    note
}

fn second(mut note: Note) -> Note {
    note.begins = 2;
    note
}

fn before_all(mut note: Note) -> Note {
    note.begins = 0;
    note.h = 0;
    note
}

fn landed(from: Tick) -> StepRow {
    StepRow {
        from,
        size: 5000,
        answer: StepAnswer::Landed {
            value: Fix::exactly(0),
            err: 0,
        },
    }
}

fn options_to(stop: Tick, ahead: u32) -> Options
    requires stop { (1 ≤ stop) × (stop ≤ 1000000000000000) }
    requires ahead { ahead ≤ 4096 }
    ensures { IsAllowed result }
{
    Options {
        stop,
        ahead,
        h0: 5000,
        hmin: 1,
        hmax: 5000,
        tol: 1,
        ltol: 1,
        xres: 1,
    }
}

/// Makes the calls, and compares the notes with those that stand beside them.
fn compare(
    rt: &impl Abort,
    alloc: Global,
    stop: u64,
    ahead: u32,
    rows: &[(Asked, Note)],
) -> Result<(), Fail> {
    let steps = [landed(tick(0)?), landed(tick(5000)?)];
    let stop = tick(stop)?;
    assert!(rt; stop.get() >= 1 && stop.get() <= 1_000_000_000_000_000 && ahead <= 4096);
    let mut asked = Vec::new(alloc);
    let mut wanted = Vec::new(alloc);
    for (one, note) in rows {
        asked.push(*one)?;
        wanted.push(*note)?;
    }
    let notes = ask_all(alloc, &steps, options_to(stop, ahead), asked.as_slice())?;
    assert_eq!(rt; notes.as_slice(), wanted.as_slice());
    Ok(())
}

#[test]
fn each_reply_is_noted(rt: HostRuntime) -> Result<(), Fail> {
    let early = tick(4999)?;
    let until = tick(5000)?;
    compare(
        &rt,
        rt.alloc(),
        25_000,
        1,
        &[
            (Asked::Work, before_all(worker(Call::Take, IDLE))),
            (Asked::Begin, engine(Call::Begin, 0)),
            (Asked::Work, ending(worker(Call::Take, TAKEN), 5000)),
            (
                Asked::Work,
                holding(ending(worker(Call::Publish, SAVED), 5000), 1),
            ),
            (Asked::Work, holding(worker(Call::Take, FULL), 1)),
            (
                Asked::Look { until: early },
                holding(engine(Call::Look, NOTHING), 1),
            ),
            (
                Asked::Look { until },
                holding(ending(engine(Call::Look, HERE), 5000), 1),
            ),
            (
                Asked::Consume,
                from(ending(engine(Call::Consume, 0), 5000), 5000),
            ),
            (
                Asked::Work,
                from(ending(worker(Call::Take, TAKEN), 10_000), 5000),
            ),
            (Asked::Begin, second(engine(Call::Begin, 0))),
            (
                Asked::Work,
                second(ending(worker(Call::Publish, STALE), 10_000)),
            ),
            (Asked::Close, second(engine(Call::Close, 0))),
            (Asked::Work, second(worker(Call::Take, CLOSED))),
        ],
    )
}

#[test]
fn no_attempt_ends_past_the_stop_time(rt: HostRuntime) -> Result<(), Fail> {
    compare(
        &rt,
        rt.alloc(),
        5000,
        64,
        &[
            (Asked::Begin, engine(Call::Begin, 0)),
            (Asked::Work, ending(worker(Call::Take, TAKEN), 5000)),
            (
                Asked::Work,
                holding(ending(worker(Call::Publish, SAVED), 5000), 1),
            ),
            (Asked::Work, holding(worker(Call::Take, ENDED), 1)),
        ],
    )
}
