//! Both threads beside each other.

ghost use Rattle.std.specs.Prelude.{◌≡◌, ◌<◌, ◌^◌, [], length, OnOk};
ghost use Rattle.lockstep_model.specs.Lockstep.{lockstep};
ghost use Rattle.lockstep_model.specs.Walk.{first_walk};
ghost use Rattle.lockstep_model.specs.Works.{attempts_in};
ghost use Rattle.timeline.specs.Jobs.{FitsLengths};
ghost use Rattle.runahead_worker.specs.Seats.{AfterRounds};
ghost use Rattle.engine_driver.specs.Standing.{IsNewSeat, CountsAll};
ghost use Rattle.threaded_run.specs.Telling.{TellsRun};

use crate::sides::{Ahead, Driven, engine_side, worker_side};
use engine_driver::Scratch;
use event_sink::EventSink;
use mixed_cycle::engine::Engine;
use runahead_worker::{Gate, LineSeat, LockedLine, Naming, Shared, WorkSeat};
use std::sync::Wait;
use std::thread::{Threads, join};
use step_model::{Design, Kernel, Stepper};

/// Both threads. Where no second thread can be made, the engine goes first and the worker finds the line closed.
pub fn both_sides<
    D: Design + Send + Sync,
    J: Naming + Send + Sync,
    S: Stepper<D> + Drop + Send,
    K: Kernel<D> + Drop,
    T: EventSink + Drop,
    G: Gate,
    R: Threads + Wait + Sync,
>(
    rt: &R,
    shared: &Shared<D, J>,
    work_seat: WorkSeat<J>,
    worker: S,
    ahead: Ahead,
    line_seat: LineSeat<J>,
    engine: Engine<D, S, K>,
    scratch: Scratch,
    sink: T,
    gate: &G,
) -> (WorkSeat<J>, Driven<J, T>)
    requires part { J.part ≡ 0 }
    requires worker { S.part worker ≡ J.part }
    requires job { FitsLengths (D.system J.part).unknowns (D.system J.part).frame_len ahead.job.tip ahead.job.frame }
    requires made { length ahead.made.x ≡ (D.system J.part).unknowns }
    requires closed { work_seat.closed < 18446744073709551615 }
    requires fresh { engine.walk ≡ first_walk (D.system 0) }
    requires few { attempts_in (lockstep (D.system 0)).works < 2 ^ 62 }
    requires new { IsNewSeat line_seat }
    requires room { length scratch.found.x ≡ (D.system 0).unknowns }
    requires empty { scratch.events ≡ [] }
    ensures worker { AfterRounds work_seat result.0 }
    ensures told { TellsRun (D.system 0) T.gained T.stopped T.faults sink result.1.sink result.1.ended }
    ensures counts { OnOk result.1.ended (CountsAll (lockstep (D.system 0)).works result.1.own result.1.seat) }
{
    let line = LockedLine::new(shared, line_seat);
    join(
        rt,
        move || -> WorkSeat<J>
            requires part { S.part worker ≡ J.part }
            requires job { FitsLengths (D.system J.part).unknowns (D.system J.part).frame_len ahead.job.tip ahead.job.frame }
            requires room { length ahead.made.x ≡ (D.system J.part).unknowns }
            requires closed { work_seat.closed < 18446744073709551615 }
            ensures { AfterRounds work_seat result }
        { worker_side(rt, shared, work_seat, worker, ahead, gate) },
        move || -> Driven<J, T>
            requires part { J.part ≡ 0 }
            requires fresh { engine.walk ≡ first_walk (D.system 0) }
            requires few { attempts_in (lockstep (D.system 0)).works < 2 ^ 62 }
            requires new { IsNewSeat line.seat }
            requires room { length scratch.found.x ≡ (D.system 0).unknowns }
            requires empty { scratch.events ≡ [] }
            ensures told { TellsRun (D.system 0) T.gained T.stopped T.faults sink result.sink result.ended }
            ensures counts { OnOk result.ended (CountsAll (lockstep (D.system 0)).works result.own result.seat) }
        { engine_side(rt, line, engine, scratch, sink, gate) },
    )
}
