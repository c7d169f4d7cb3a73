//! A whole run.
ghost use Rattle.std.specs.Prelude.{◌≡◌, ◌<◌, ◌^◌, [], length, OnOk, IfOk, IfSome};
ghost use Rattle.step_data.specs.Options.{IsAllowed};
ghost use Rattle.step_model.specs.declared.kernel_stage.KernelStage.TheVariants.{Unstarted};
ghost use Rattle.lockstep_model.specs.Lockstep.{lockstep};
ghost use Rattle.lockstep_model.specs.Walk.{first_walk};
ghost use Rattle.lockstep_model.specs.Works.{events_of};
ghost use Rattle.run_place.specs.Budgets.{delta_budget, run_budget};
ghost use Rattle.timeline.specs.Notes.{no_counts};
ghost use Rattle.trace_text.specs.Trace.{end_line};
ghost use Rattle.trace_sink.specs.Puts.{Puts, PutsLine};
ghost use Rattle.trace_lines.specs.Lines.{work_lines, trace_lines};
ghost use Rattle.threaded_run.specs.Telling.{Reported, IsEachPublished, RunnerFits};

use crate::start::{Prepared, prepare};
use crate::works::{Lined, run_lines};
use flat_design::{Enumeration, Flat};
use port_io::Sink;
use runahead_worker::Gate;
use std::alloc::Global;
use std::sync::Wait;
use std::thread::Threads;
use step_data::{End, Options};
use step_model::{Design, Kernel, Stepper};
use timeline::Counts;
use trace_lines::{put_end, put_header};
use trace_sink::TraceFault;

/// What a run gave: how it ended, how many attempts the engine made itself, how often the timeline gave each reply, and the
/// trace.
#[derive(Drop)]
pub struct Written<W: Drop> {
    pub ended: Result<End, TraceFault>,
    pub own: u64,
    pub counts: Counts,
    pub trace: W,
}

/// Nothing was counted.
const NO_COUNTS: Counts = Counts {
    begins: 0,
    taken: 0,
    saved: 0,
    stale: 0,
    reused: 0,
    closed: 0,
};

impl<W: Drop> Written<W> {
    /// A run that came to nothing.
    pub fn nothing(fault: TraceFault, trace: W) -> Written<W>
        ensures fault { result.ended ≡ Err fault }
        ensures counts { result.counts ≡ no_counts }
        ensures trace { result.trace ≡ trace }
    {
        Written {
            ended: Err(fault),
            own: 0,
            counts: NO_COUNTS,
            trace,
        }
    }
}

/// Writes the last line.
fn end_with<W: Sink + Drop>(end: End, room: Vec<u8>, trace: W) -> (Result<End, TraceFault>, W)
    ensures puts { PutsLine result.0 (end_line end) (W.held trace) (W.held result.1) (W.faults trace) (W.faults result.1) }
    ensures end { IfOk result.0 (λ told. told ≡ end) }
{
    let mut room = room;
    let mut trace = trace;
    match put_end(&end, &mut room, &mut trace) {
        Ok(()) => (Ok(end), trace),
        Err(fault) => (Err(fault), trace),
    }
}

/// Writes the lines of all that is prepared, and the last line.
fn write_works<
    D: Design + Send + Sync,
    S: Stepper<D> + Drop + Send,
    K: Kernel<D> + Drop,
    W: Sink + Drop,
    G: Gate,
    R: Threads + Wait + Sync,
>(
    rt: &R,
    prepared: Prepared<D, S, K>,
    enums: &[Enumeration],
    room: Vec<u8>,
    trace: W,
    gate: &G,
) -> Written<W>
    requires part { prepared.timeline.part ≡ 0 }
    requires counts { prepared.timeline.line.journal.counts ≡ no_counts }
    requires entries { prepared.timeline.line.journal.entries ≡ [] }
    requires worker { IfSome prepared.runner (λ runner. RunnerFits (D.system 0) 0 (S.part runner.stepper) runner.ahead) }
    requires fresh { prepared.engine.walk ≡ first_walk (D.system 0) }
    requires tries { (D.system 0).tries ≡ run_budget }
    requires room { length prepared.scratch.found.x ≡ (D.system 0).unknowns }
    requires empty { prepared.scratch.events ≡ [] }
    ensures puts { Puts result.ended (work_lines enums.now (events_of (lockstep (D.system 0)).works) (lockstep (D.system 0)).end)
        (W.held trace) (W.held result.trace) (W.faults trace) (W.faults result.trace) }
    ensures end { IfOk result.ended (λ end. end ≡ (lockstep (D.system 0)).end) }
    ensures report { OnOk result.ended (Reported (lockstep (D.system 0)).works result.own result.counts) }
    ensures published { IsEachPublished result.counts }
{
    let lined = run_lines(rt, prepared, enums, room, trace, gate);
    let Lined {
        ended,
        own,
        counts,
        room,
        trace,
        ..
    } = lined;
    match ended {
        Ok(end) => {
            let (ended, trace) = end_with(end, room, trace);
            Written {
                ended,
                own,
                counts,
                trace,
            }
        }
        Err(fault) => Written {
            ended: Err(fault),
            own,
            counts,
            trace,
        },
    }
}

/// Writes the whole trace of all that is prepared.
fn write_run<
    D: Design + Send + Sync,
    S: Stepper<D> + Drop + Send,
    K: Kernel<D> + Drop,
    W: Sink + Drop,
    G: Gate,
    R: Threads + Wait + Sync,
>(
    rt: &R,
    alloc: Global,
    flat: &Flat,
    top: &str,
    options: &Options,
    prepared: Prepared<D, S, K>,
    trace: W,
    gate: &G,
) -> Written<W>
    requires part { prepared.timeline.part ≡ 0 }
    requires counts { prepared.timeline.line.journal.counts ≡ no_counts }
    requires entries { prepared.timeline.line.journal.entries ≡ [] }
    requires worker { IfSome prepared.runner (λ runner. RunnerFits (D.system 0) 0 (S.part runner.stepper) runner.ahead) }
    requires fresh { prepared.engine.walk ≡ first_walk (D.system 0) }
    requires tries { (D.system 0).tries ≡ run_budget }
    requires room { length prepared.scratch.found.x ≡ (D.system 0).unknowns }
    requires empty { prepared.scratch.events ≡ [] }
    ensures puts { Puts result.ended (trace_lines flat.now top.now options.now (events_of (lockstep (D.system 0)).works) (lockstep (D.system 0)).end)
        (W.held trace) (W.held result.trace) (W.faults trace) (W.faults result.trace) }
    ensures end { IfOk result.ended (λ end. end ≡ (lockstep (D.system 0)).end) }
    ensures report { OnOk result.ended (Reported (lockstep (D.system 0)).works result.own result.counts) }
    ensures published { IsEachPublished result.counts }
{
    let mut room = Vec::new(alloc);
    let mut trace = trace;
    match put_header(flat, top, options, &mut room, &mut trace) {
        Ok(()) => write_works(rt, prepared, flat.enumerations(), room, trace, gate),
        Err(fault) => Written {
            ended: Err(fault),
            own: 0,
            counts: NO_COUNTS,
            trace,
        },
    }
}

/// Runs a design on threads with these options, and writes its trace: the header with the names of the flat design, a line
/// for each event, and the last line. The solvers and the kernel are those of the named design; the kernel isn't started
/// yet. Without a solver that runs ahead, or room for it, the engine runs alone. Whatever happens ahead, the trace is that
/// of lockstep. All memory that doesn't grow with the events of one move is taken before the first line.
pub fn run_on_threads<
    D: Design + Send + Sync,
    S: Stepper<D> + Drop + Send,
    K: Kernel<D> + Drop,
    W: Sink + Drop,
    G: Gate,
    R: Threads + Wait + Sync,
>(
    rt: &R,
    alloc: Global,
    flat: &Flat,
    top: &str,
    options: &Options,
    stepper: S,
    worker: Option<S>,
    kernel: K,
    trace: W,
    gate: &G,
) -> Written<W>
    requires part { S.part stepper ≡ 0 }
    requires worker { IfSome worker (λ ahead. S.part ahead ≡ 0) }
    requires stage { (K.state kernel).stage ≡ Unstarted }
    requires options { options.now ≡ (D.system 0).options }
    requires allowed { IsAllowed options.now }
    requires deltas { (D.system 0).deltas ≡ delta_budget }
    requires choices { (D.system 0).choices < 2 ^ 32 }
    requires cycles { (D.system 0).cycles ≡ run_budget }
    requires tries { (D.system 0).tries ≡ run_budget }
    ensures puts { Puts result.ended (trace_lines flat.now top.now options.now (events_of (lockstep (D.system 0)).works) (lockstep (D.system 0)).end)
        (W.held trace) (W.held result.trace) (W.faults trace) (W.faults result.trace) }
    ensures end { IfOk result.ended (λ end. end ≡ (lockstep (D.system 0)).end) }
    ensures report { OnOk result.ended (Reported (lockstep (D.system 0)).works result.own result.counts) }
    ensures published { IsEachPublished result.counts }
{
    match prepare(alloc, options, stepper, worker, kernel) {
        Ok(prepared) => write_run(rt, alloc, flat, top, options, prepared, trace, gate),
        Err(_) => Written {
            ended: Err(TraceFault::Memory),
            own: 0,
            counts: NO_COUNTS,
            trace,
        },
    }
}
