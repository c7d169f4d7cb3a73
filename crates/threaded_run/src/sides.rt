//! What each of the two threads does.

ghost use Rattle.std.specs.Prelude.{◌≡◌, ◌<◌, ◌^◌, [], length, OnOk, IfOk};
ghost use Rattle.lockstep_model.specs.Lockstep.{lockstep};
ghost use Rattle.lockstep_model.specs.Walk.{first_walk};
ghost use Rattle.lockstep_model.specs.Works.{attempts_in};
ghost use Rattle.timeline.specs.Jobs.{FitsLengths};
ghost use Rattle.runahead_worker.specs.Seats.{AfterRounds};
ghost use Rattle.engine_driver.specs.Standing.{IsNewSeat, CountsAll};
ghost use Rattle.threaded_run.specs.Telling.{TellsRun};

use engine_driver::{Scratch, drive};
use event_sink::{EventSink, SinkFault};
use mixed_cycle::engine::Engine;
use runahead_worker::{Gate, LineSeat, LockedLine, Naming, Shared, WorkSeat, work};
use std::alloc::{AllocError, Global};
use std::sync::Wait;
use step_data::{Attempt, End};
use step_model::{Design, Kernel, Stepper};
use timeline::Job;

/// What a worker needs beside its solver: room for a job and for its attempt.
#[derive(Drop)]
pub struct Ahead {
    pub job: Job,
    pub made: Attempt,
}

impl Ahead {
    pub fn new(alloc: Global, unknowns: usize, frame_len: usize) -> Result<Ahead, AllocError>
        ensures job { IfOk result (λ ahead. FitsLengths unknowns frame_len ahead.job.tip ahead.job.frame) }
        ensures made { IfOk result (λ ahead. length ahead.made.x ≡ unknowns) }
    {
        let job = Job::blank(alloc, unknowns, frame_len)?;
        let made = Attempt::blank(alloc, unknowns)?;
        Ok(Ahead { job, made })
    }
}

/// The worker's thread.
pub fn worker_side<D: Design, J: Naming, S: Stepper<D> + Drop, G: Gate, R: Wait>(
    rt: &R,
    shared: &Shared<D, J>,
    seat: WorkSeat<J>,
    stepper: S,
    ahead: Ahead,
    gate: &G,
) -> WorkSeat<J>
    requires part { S.part stepper ≡ J.part }
    requires job { FitsLengths (D.system J.part).unknowns (D.system J.part).frame_len ahead.job.tip ahead.job.frame }
    requires room { length ahead.made.x ≡ (D.system J.part).unknowns }
    requires closed { seat.closed < 18446744073709551615 }
    ensures { AfterRounds seat result }
{
    let mut seat = seat;
    let mut stepper = stepper;
    let mut ahead = ahead;
    work(
        rt,
        shared,
        &mut seat,
        &mut stepper,
        &mut ahead.job,
        &mut ahead.made,
        gate,
    );
    seat
}

/// What the engine's thread gives back.
#[derive(Drop)]
pub struct Driven<J: Naming, T: Drop> {
    pub seat: LineSeat<J>,
    pub ended: Result<End, SinkFault>,
    pub own: u64,
    pub sink: T,
}

/// The engine's thread. The line is closed at its end.
pub fn engine_side<
    D: Design,
    J: Naming,
    S: Stepper<D> + Drop,
    K: Kernel<D> + Drop,
    T: EventSink + Drop,
    G: Gate,
    R: Wait,
>(
    rt: &R,
    line: LockedLine<'_, D, J>,
    engine: Engine<D, S, K>,
    scratch: Scratch,
    sink: T,
    gate: &G,
) -> Driven<J, T>
    requires part { J.part ≡ 0 }
    requires fresh { engine.walk ≡ first_walk (D.system 0) }
    requires few { attempts_in (lockstep (D.system 0)).works < 2 ^ 62 }
    requires new { IsNewSeat line.seat }
    requires room { length scratch.found.x ≡ (D.system 0).unknowns }
    requires empty { scratch.events ≡ [] }
    ensures told { TellsRun (D.system 0) T.gained T.stopped T.faults sink result.sink result.ended }
    ensures counts { OnOk result.ended (CountsAll (lockstep (D.system 0)).works result.own result.seat) }
{
    let mut line = line;
    let mut engine = engine;
    let mut scratch = scratch;
    let mut sink = sink;
    let ended = drive(rt, &mut line, &mut engine, &mut scratch, &mut sink, gate);
    Driven {
        seat: line.end(),
        ended,
        own: engine.own(),
        sink,
    }
}
