//! A whole run by two threads.

ghost use Rattle.std.specs.Prelude.{◌≡◌, ◌<◌, ◌^◌, [], length, OnOk, IfSome};
ghost use Rattle.lockstep_model.specs.Lockstep.{lockstep};
ghost use Rattle.lockstep_model.specs.Walk.{first_walk};
ghost use Rattle.lockstep_model.specs.Works.{attempts_in};
ghost use Rattle.run_place.specs.Budgets.{run_budget};
ghost use Rattle.timeline.specs.Kept.{Holds};
ghost use Rattle.timeline.specs.Notes.{no_counts};
ghost use Rattle.runahead_worker.specs.Names.{HaveOnePart, AreNamed};
ghost use Rattle.runahead_worker.specs.Seats.{IsEven};
ghost use Rattle.engine_driver.specs.Standing.{IsNewSeat, CountsAll};
ghost use Rattle.threaded_run.specs.Telling.{TellsRun, Reported, IsEachPublished, RunnerFits, IsNewWorkSeat};

use crate::both::both_sides;
use crate::sides::{Ahead, Driven, engine_side};
use engine_driver::Scratch;
use event_sink::{EventSink, SinkFault};
use mixed_cycle::engine::Engine;
use runahead_worker::{Blanks, Gate, LineSeat, LockedLine, Naming, Shared, WorkSeat};
use std::marker::Brand;
use std::sync::Wait;
use std::thread::Threads;
use step_data::End;
use step_model::{Design, Kernel, Stepper};
use timeline::Timeline;

/// What a run gave: how it ended, how many attempts the engine made itself, the sink, and the timeline with its counts.
#[derive(Drop)]
pub struct Ran<D: Design, T: Drop> {
    pub ended: Result<End, SinkFault>,
    pub own: u64,
    pub sink: T,
    pub timeline: Timeline<D>,
}

/// A solver that runs ahead, with its room.
#[derive(Drop)]
pub struct Runner<S: Drop> {
    pub stepper: S,
    pub ahead: Ahead,
}

/// The engine alone, on the same line.
fn alone<
    D: Design,
    J: Naming,
    S: Stepper<D> + Drop,
    K: Kernel<D> + Drop,
    T: EventSink + Drop,
    G: Gate,
    R: Wait,
>(
    rt: &R,
    shared: &Shared<D, J>,
    seat: LineSeat<J>,
    engine: Engine<D, S, K>,
    scratch: Scratch,
    sink: T,
    gate: &G,
) -> Driven<J, T>
    requires part { J.part ≡ 0 }
    requires fresh { engine.walk ≡ first_walk (D.system 0) }
    requires few { attempts_in (lockstep (D.system 0)).works < 2 ^ 62 }
    requires new { IsNewSeat seat }
    requires room { length scratch.found.x ≡ (D.system 0).unknowns }
    requires empty { scratch.events ≡ [] }
    ensures told { TellsRun (D.system 0) T.gained T.stopped T.faults sink result.sink result.ended }
    ensures counts { OnOk result.ended (CountsAll (lockstep (D.system 0)).works result.own result.seat) }
{
    let line = LockedLine::new(shared, seat);
    engine_side(rt, line, engine, scratch, sink, gate)
}

/// The engine with a worker ahead of it, or alone where no worker could be made.
#[tactic(auto, using(crate::specs::Telling::even_after, crate::specs::Telling::even_new))]
fn sides<
    D: Design + Send + Sync,
    J: Naming + Send + Sync,
    S: Stepper<D> + Drop + Send,
    K: Kernel<D> + Drop,
    T: EventSink + Drop,
    G: Gate,
    R: Threads + Wait + Sync,
>(
    rt: &R,
    shared: &Shared<D, J>,
    work_seat: WorkSeat<J>,
    runner: Option<Runner<S>>,
    line_seat: LineSeat<J>,
    engine: Engine<D, S, K>,
    scratch: Scratch,
    sink: T,
    gate: &G,
) -> (WorkSeat<J>, Driven<J, T>)
    requires part { J.part ≡ 0 }
    requires worker { IfSome runner (λ r. RunnerFits (D.system J.part) J.part (S.part r.stepper) r.ahead) }
    requires none { IsNewWorkSeat work_seat }
    requires fresh { engine.walk ≡ first_walk (D.system 0) }
    requires few { attempts_in (lockstep (D.system 0)).works < 2 ^ 62 }
    requires new { IsNewSeat line_seat }
    requires room { length scratch.found.x ≡ (D.system 0).unknowns }
    requires empty { scratch.events ≡ [] }
    ensures even { IsEven result.0 }
    ensures told { TellsRun (D.system 0) T.gained T.stopped T.faults sink result.1.sink result.1.ended }
    ensures counts { OnOk result.1.ended (CountsAll (lockstep (D.system 0)).works result.1.own result.1.seat) }
{
    match runner {
        Some(runner) => both_sides(
            rt,
            shared,
            work_seat,
            runner.stepper,
            runner.ahead,
            line_seat,
            engine,
            scratch,
            sink,
            gate,
        ),
        None => {
            let driven = alone(rt, shared, line_seat, engine, scratch, sink, gate);
            (work_seat, driven)
        }
    }
}

/// The same, where the numbers have their names.
#[tactic(auto, using(crate::specs::Telling::reported_if, crate::specs::Telling::each_published))]
fn run_named<
    D: Design + Send + Sync,
    J: Naming + Send + Sync,
    S: Stepper<D> + Drop + Send,
    K: Kernel<D> + Drop,
    T: EventSink + Drop,
    G: Gate,
    R: Threads + Wait + Sync,
>(
    rt: &R,
    timeline: Timeline<D>,
    runner: Option<Runner<S>>,
    engine: Engine<D, S, K>,
    scratch: Scratch,
    sink: T,
    blanks: Blanks,
    gate: &G,
) -> Ran<D, T>
    requires one { HaveOnePart blanks }
    requires named { AreNamed J.names blanks }
    requires part { J.part ≡ 0 }
    requires line { timeline.part ≡ J.part }
    requires counts { timeline.line.journal.counts ≡ no_counts }
    requires entries { timeline.line.journal.entries ≡ [] }
    requires worker { IfSome runner (λ r. RunnerFits (D.system J.part) J.part (S.part r.stepper) r.ahead) }
    requires fresh { engine.walk ≡ first_walk (D.system 0) }
    requires few { attempts_in (lockstep (D.system 0)).works < 2 ^ 62 }
    requires room { length scratch.found.x ≡ (D.system 0).unknowns }
    requires empty { scratch.events ≡ [] }
    ensures told { TellsRun (D.system 0) T.gained T.stopped T.faults sink result.sink result.ended }
    ensures report { OnOk result.ended (Reported (lockstep (D.system 0)).works result.own result.timeline.line.journal.counts) }
    ensures published { IsEachPublished result.timeline.line.journal.counts }
    ensures holds { Holds (D.system 0) result.timeline.line }
{
    let (shared, line_seat, work_seat) = Shared::<D, J>::new(timeline, blanks);
    let (work_seat, driven) = sides(
        rt, &shared, work_seat, runner, line_seat, engine, scratch, sink, gate,
    );
    let timeline = shared.finish(driven.seat, work_seat);
    Ran {
        ended: driven.ended,
        own: driven.own,
        sink: driven.sink,
        timeline,
    }
}

/// Runs a new engine beside a worker, over one timeline on which nothing was begun. Whatever the worker does, or where there is
/// none, the sink takes in lockstep's events, the end is lockstep's, and each attempt was found or was an own one.
pub fn run<
    D: Design + Send + Sync,
    S: Stepper<D> + Drop + Send,
    K: Kernel<D> + Drop,
    T: EventSink + Drop,
    G: Gate,
    R: Threads + Wait + Sync,
>(
    rt: &R,
    timeline: Timeline<D>,
    runner: Option<Runner<S>>,
    engine: Engine<D, S, K>,
    scratch: Scratch,
    sink: T,
    gate: &G,
) -> Ran<D, T>
    requires part { timeline.part ≡ 0 }
    requires counts { timeline.line.journal.counts ≡ no_counts }
    requires entries { timeline.line.journal.entries ≡ [] }
    requires worker { IfSome runner (λ r. RunnerFits (D.system 0) 0 (S.part r.stepper) r.ahead) }
    requires fresh { engine.walk ≡ first_walk (D.system 0) }
    requires tries { (D.system 0).tries ≡ run_budget }
    requires room { length scratch.found.x ≡ (D.system 0).unknowns }
    requires empty { scratch.events ≡ [] }
    ensures told { TellsRun (D.system 0) T.gained T.stopped T.faults sink result.sink result.ended }
    ensures report { OnOk result.ended (Reported (lockstep (D.system 0)).works result.own result.timeline.line.journal.counts) }
    ensures published { IsEachPublished result.timeline.line.journal.counts }
    ensures holds { Holds (D.system 0) result.timeline.line }
{
    run_named::<D, Brand, S, K, T, G, R>(
        rt,
        timeline,
        runner,
        engine,
        scratch,
        sink,
        Blanks::new(),
        gate,
    )
}
