//! A whole replay.
ghost use Rattle.std.specs.Prelude.{◌≡◌, ◌<◌, ◌^◌, OnOk, IfOk};
ghost use Rattle.step_data.specs.Options.{IsAllowed};
ghost use Rattle.step_model.specs.declared.kernel_stage.KernelStage.TheVariants.{Unstarted};
ghost use Rattle.lockstep_model.specs.Lockstep.{lockstep};
ghost use Rattle.lockstep_model.specs.Works.{events_of};
ghost use Rattle.run_place.specs.Budgets.{delta_budget, run_budget};
ghost use Rattle.core_steps.specs.States.{first_state};
ghost use Rattle.trace_text.specs.Trace.{end_line};
ghost use Rattle.trace_sink.specs.Puts.{Puts, PutsLine};
ghost use Rattle.trace_lines.specs.Lines.{work_lines, trace_lines};
ghost use Rattle.replay_model.specs.Replays.{replayed, report_at, report_of};

use crate::steps::put_steps;
use ahead_report::Report;
use core_steps::CoreOfTwo;
use flat_design::{Enumeration, Flat};
use mixed_cycle::engine::Engine;
use port_io::Sink;
use std::alloc::{AllocError, Global};
use step_data::{End, EventList, Options};
use step_model::{Design, Kernel, Stepper};
use step_schedule::Step;
use timeline::Timeline;
use trace_lines::{put_end, put_header};
use trace_sink::TraceFault;

/// What a replay gave.
#[derive(Clone, Copy, Debug, PartialEq, Eq)]
pub struct Replayed {
    pub end: End,
    pub report: Report,
}

/// The report of a core.
fn report_of<D: Design, S: Stepper<D>, K: Kernel<D>>(core: &CoreOfTwo<D, S, K>) -> Report
    ensures { result ≡ report_at core.now }
{
    Report {
        counts: core.counts(),
        own: core.own(),
    }
}

/// Writes the last line.
fn end_with<W: Sink>(end: End, room: &mut Vec<u8>, trace: &mut W) -> Result<End, TraceFault>
    ensures puts { PutsLine result (end_line end) (W.held trace.old) (W.held trace.new) (W.faults trace.old) (W.faults trace.new) }
    ensures end { IfOk result (λ told. told ≡ end) }
{
    match put_end(&end, room, trace) {
        Ok(()) => Ok(end),
        Err(fault) => Err(fault),
    }
}

/// Writes the lines of all steps, and the last line.
fn write_works<D: Design, S: Stepper<D>, K: Kernel<D>, W: Sink>(
    alloc: Global,
    core: &mut CoreOfTwo<D, S, K>,
    schedule: &[Step],
    enums: &[Enumeration],
    room: &mut Vec<u8>,
    trace: &mut W,
) -> Result<End, TraceFault>
    requires fresh { core.old ≡ first_state (D.system 0) }
    ensures puts { Puts result (work_lines enums.now (events_of core.old.led.walk.works) core.old.led.walk.end)
        (W.held trace.old) (W.held trace.new) (W.faults trace.old) (W.faults trace.new) }
    ensures end { IfOk result (λ end. end ≡ core.old.led.walk.end) }
    ensures state { OnOk result (core.new ≡ replayed (D.system 0) schedule.now) }
{
    let mut out = EventList::new(alloc);
    match put_steps(core, schedule, enums, &mut out, room, trace) {
        Ok(end) => end_with(end, room, trace),
        Err(fault) => Err(fault),
    }
}

/// Writes the whole trace of a replay that is before its start.
fn write_replay<D: Design, S: Stepper<D>, K: Kernel<D>, W: Sink>(
    alloc: Global,
    flat: &Flat,
    top: &str,
    options: &Options,
    schedule: &[Step],
    core: &mut CoreOfTwo<D, S, K>,
    trace: &mut W,
) -> Result<End, TraceFault>
    requires fresh { core.old ≡ first_state (D.system 0) }
    ensures puts { Puts result (trace_lines flat.now top.now options.now (events_of core.old.led.walk.works) core.old.led.walk.end)
        (W.held trace.old) (W.held trace.new) (W.faults trace.old) (W.faults trace.new) }
    ensures end { IfOk result (λ end. end ≡ core.old.led.walk.end) }
    ensures state { OnOk result (core.new ≡ replayed (D.system 0) schedule.now) }
{
    let mut room = Vec::new(alloc);
    match put_header(flat, top, options, &mut room, trace) {
        Ok(()) => write_works(alloc, core, schedule, flat.enumerations(), &mut room, trace),
        Err(fault) => Err(fault),
    }
}

/// An engine, a worker and a timeline that nothing has begun.
fn first_core<D: Design, S: Stepper<D> + Drop, K: Kernel<D> + Drop>(
    alloc: Global,
    options: &Options,
    stepper: S,
    worker: S,
    kernel: K,
) -> Result<CoreOfTwo<D, S, K>, AllocError>
    requires part { S.part stepper ≡ 0 }
    requires worker { S.part worker ≡ 0 }
    requires stage { (K.state kernel).stage ≡ Unstarted }
    requires options { options.now ≡ (D.system 0).options }
    requires allowed { IsAllowed options.now }
    requires deltas { (D.system 0).deltas ≡ delta_budget }
    requires choices { (D.system 0).choices < 2 ^ 32 }
    requires cycles { (D.system 0).cycles ≡ run_budget }
    requires tries { (D.system 0).tries ≡ run_budget }
    ensures { IfOk result (λ core. core ≡ first_state (D.system 0)) }
{
    let line = Timeline::new(
        alloc,
        0,
        options.ahead,
        options.stop,
        worker.unknowns(),
        worker.frame_len(),
    )?;
    let engine = Engine::new(stepper, kernel, *options, alloc)?;
    CoreOfTwo::new(engine, worker, line, alloc)
}

/// Replays a run with these options by a schedule of steps, and writes its trace: the header with the names of the flat design,
/// a line for each event, and the last line. Behind the schedule the engine goes on alone. The solvers and the kernel are those
/// of the named design; the kernel isn't started yet. All memory that doesn't grow with the events of one step is taken before
/// the first line.
pub fn run_replay<D: Design, S: Stepper<D> + Drop, K: Kernel<D> + Drop, W: Sink>(
    alloc: Global,
    flat: &Flat,
    top: &str,
    options: &Options,
    schedule: &[Step],
    stepper: S,
    worker: S,
    kernel: K,
    trace: &mut W,
) -> Result<Replayed, TraceFault>
    requires part { S.part stepper ≡ 0 }
    requires worker { S.part worker ≡ 0 }
    requires stage { (K.state kernel).stage ≡ Unstarted }
    requires options { options.now ≡ (D.system 0).options }
    requires allowed { IsAllowed options.now }
    requires deltas { (D.system 0).deltas ≡ delta_budget }
    requires choices { (D.system 0).choices < 2 ^ 32 }
    requires cycles { (D.system 0).cycles ≡ run_budget }
    requires tries { (D.system 0).tries ≡ run_budget }
    ensures puts { Puts result (trace_lines flat.now top.now options.now (events_of (lockstep (D.system 0)).works) (lockstep (D.system 0)).end)
        (W.held trace.old) (W.held trace.new) (W.faults trace.old) (W.faults trace.new) }
    ensures end { IfOk result (λ told. told.end ≡ (lockstep (D.system 0)).end) }
    ensures report { IfOk result (λ told. told.report ≡ report_of (D.system 0) schedule.now) }
{
    match first_core(alloc, options, stepper, worker, kernel) {
        Ok(mut core) => {
            match write_replay(alloc, flat, top, options, schedule, &mut core, trace) {
                Ok(end) => Ok(Replayed {
                    end,
                    report: report_of(&core),
                }),
                Err(fault) => Err(fault),
            }
        }
        Err(_) => Err(TraceFault::Memory),
    }
}
