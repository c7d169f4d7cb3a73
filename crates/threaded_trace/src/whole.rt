//! A whole run, with its timeline.
ghost use Rattle.std.specs.Prelude.{◌≡◌, ◌<◌, ◌^◌, [], length, OnOk, IfOk, IfSome};
ghost use Rattle.step_data.specs.Options.{IsAllowed};
ghost use Rattle.step_model.specs.declared.kernel_stage.KernelStage.TheVariants.{Unstarted};
ghost use Rattle.lockstep_model.specs.Lockstep.{lockstep};
ghost use Rattle.lockstep_model.specs.Walk.{first_walk};
ghost use Rattle.lockstep_model.specs.Works.{events_of};
ghost use Rattle.run_place.specs.Budgets.{delta_budget, run_budget};
ghost use Rattle.timeline.specs.Notes.{no_counts};
ghost use Rattle.trace_text.specs.Trace.{end_line};
ghost use Rattle.trace_sink.specs.Puts.{Puts, PutsLine};
ghost use Rattle.trace_lines.specs.Lines.{work_lines, trace_lines};
ghost use Rattle.threaded_run.specs.Telling.{RunnerFits};
ghost use Rattle.threaded_trace.specs.Fitting.{Fits, Within};

use crate::traced::{NO_COUNTS, Traced};
use flat_design::{Enumeration, Flat};
use port_io::Sink;
use runahead_worker::Gate;
use std::alloc::Global;
use std::sync::Wait;
use std::thread::Threads;
use step_data::{End, Options};
use step_model::{Design, Kernel, Stepper};
use threaded_lines::{Lined, Prepared, prepare, run_lines};
use timeline::Timeline;
use trace_lines::{put_end, put_header};
use trace_sink::TraceFault;

/// For so many notes of calls there are places.
const PLACES: u32 = 65_536;

/// A timeline with places for notes. Where no memory is found it has none, and its notes are cut.
fn with_places<D: Design>(timeline: Timeline<D>) -> Timeline<D>
    requires { timeline.line.journal.reserved ≡ 0 }
    ensures part { result.part ≡ timeline.part }
    ensures counts { result.line.journal.counts ≡ timeline.line.journal.counts }
    ensures entries { result.line.journal.entries ≡ timeline.line.journal.entries }
{
    let mut timeline = timeline;
    match timeline.reserve_journal(PLACES) {
        Ok(()) | Err(_) => timeline,
    }
}

/// Writes the last line.
fn end_with<W: Sink + Drop>(end: End, room: Vec<u8>, trace: W) -> (Result<End, TraceFault>, W)
    ensures puts { PutsLine result.0 (end_line end) (W.held trace) (W.held result.1) (W.faults trace) (W.faults result.1) }
    ensures end { IfOk result.0 (λ told. told ≡ end) }
{
    let mut room = room;
    let mut trace = trace;
    match put_end(&end, &mut room, &mut trace) {
        Ok(()) => (Ok(end), trace),
        Err(fault) => (Err(fault), trace),
    }
}

/// Writes the lines of all that is prepared, and the last line.
fn write_works<
    D: Design + Send + Sync,
    S: Stepper<D> + Drop + Send,
    K: Kernel<D> + Drop,
    W: Sink + Drop,
    G: Gate,
    R: Threads + Wait + Sync,
>(
    rt: &R,
    prepared: Prepared<D, S, K>,
    enums: &[Enumeration],
    room: Vec<u8>,
    trace: W,
    gate: &G,
) -> Traced<D, W>
    requires part { prepared.timeline.part ≡ 0 }
    requires counts { prepared.timeline.line.journal.counts ≡ no_counts }
    requires entries { prepared.timeline.line.journal.entries ≡ [] }
    requires worker { IfSome prepared.runner (λ runner. RunnerFits (D.system 0) 0 (S.part runner.stepper) runner.ahead) }
    requires fresh { prepared.engine.walk ≡ first_walk (D.system 0) }
    requires tries { (D.system 0).tries ≡ run_budget }
    requires room { length prepared.scratch.found.x ≡ (D.system 0).unknowns }
    requires empty { prepared.scratch.events ≡ [] }
    ensures puts { Puts result.ended (work_lines enums.now (events_of (lockstep (D.system 0)).works) (lockstep (D.system 0)).end)
        (W.held trace) (W.held result.trace) (W.faults trace) (W.faults result.trace) }
    ensures end { IfOk result.ended (λ end. end ≡ (lockstep (D.system 0)).end) }
    ensures fits { OnOk result.ended (Fits (lockstep (D.system 0)).works result.own result.counts) }
    ensures within { IfSome result.timeline (λ timeline. Within (D.system 0).options.ahead timeline.line) }
    ensures counts { IfSome result.timeline (λ timeline. result.counts ≡ timeline.line.journal.counts) }
{
    let lined = run_lines(rt, prepared, enums, room, trace, gate);
    let Lined {
        ended,
        own,
        counts,
        room,
        trace,
        timeline,
    } = lined;
    match ended {
        Ok(end) => {
            let (ended, trace) = end_with(end, room, trace);
            Traced {
                ended,
                own,
                counts,
                trace,
                timeline: Some(timeline),
            }
        }
        Err(fault) => Traced {
            ended: Err(fault),
            own,
            counts,
            trace,
            timeline: Some(timeline),
        },
    }
}

/// Writes the whole trace of all that is prepared.
fn write_run<
    D: Design + Send + Sync,
    S: Stepper<D> + Drop + Send,
    K: Kernel<D> + Drop,
    W: Sink + Drop,
    G: Gate,
    R: Threads + Wait + Sync,
>(
    rt: &R,
    alloc: Global,
    flat: &Flat,
    top: &str,
    options: &Options,
    prepared: Prepared<D, S, K>,
    trace: W,
    gate: &G,
) -> Traced<D, W>
    requires part { prepared.timeline.part ≡ 0 }
    requires counts { prepared.timeline.line.journal.counts ≡ no_counts }
    requires entries { prepared.timeline.line.journal.entries ≡ [] }
    requires worker { IfSome prepared.runner (λ runner. RunnerFits (D.system 0) 0 (S.part runner.stepper) runner.ahead) }
    requires fresh { prepared.engine.walk ≡ first_walk (D.system 0) }
    requires tries { (D.system 0).tries ≡ run_budget }
    requires room { length prepared.scratch.found.x ≡ (D.system 0).unknowns }
    requires empty { prepared.scratch.events ≡ [] }
    ensures puts { Puts result.ended (trace_lines flat.now top.now options.now (events_of (lockstep (D.system 0)).works) (lockstep (D.system 0)).end)
        (W.held trace) (W.held result.trace) (W.faults trace) (W.faults result.trace) }
    ensures end { IfOk result.ended (λ end. end ≡ (lockstep (D.system 0)).end) }
    ensures fits { OnOk result.ended (Fits (lockstep (D.system 0)).works result.own result.counts) }
    ensures within { IfSome result.timeline (λ timeline. Within (D.system 0).options.ahead timeline.line) }
    ensures counts { IfSome result.timeline (λ timeline. result.counts ≡ timeline.line.journal.counts) }
{
    let mut room = Vec::new(alloc);
    let mut trace = trace;
    match put_header(flat, top, options, &mut room, &mut trace) {
        Ok(()) => write_works(rt, prepared, flat.enumerations(), room, trace, gate),
        Err(fault) => Traced {
            ended: Err(fault),
            own: 0,
            counts: NO_COUNTS,
            trace,
            timeline: None,
        },
    }
}

/// Makes all that a run takes, and places for notes.
fn prepared_of<D: Design, S: Stepper<D> + Drop, K: Kernel<D> + Drop>(
    alloc: Global,
    options: &Options,
    stepper: S,
    worker: Option<S>,
    kernel: K,
) -> Option<Prepared<D, S, K>>
    requires part { S.part stepper ≡ 0 }
    requires worker { IfSome worker (λ ahead. S.part ahead ≡ 0) }
    requires stage { (K.state kernel).stage ≡ Unstarted }
    requires options { options.now ≡ (D.system 0).options }
    requires allowed { IsAllowed options.now }
    requires deltas { (D.system 0).deltas ≡ delta_budget }
    requires choices { (D.system 0).choices < 2 ^ 32 }
    requires cycles { (D.system 0).cycles ≡ run_budget }
    requires tries { (D.system 0).tries ≡ run_budget }
    ensures part { IfSome result (λ made. made.timeline.part ≡ 0) }
    ensures counts { IfSome result (λ made. made.timeline.line.journal.counts ≡ no_counts) }
    ensures entries { IfSome result (λ made. made.timeline.line.journal.entries ≡ []) }
    ensures worker { IfSome result (λ made. IfSome made.runner (λ runner. RunnerFits (D.system 0) 0 (S.part runner.stepper) runner.ahead)) }
    ensures fresh { IfSome result (λ made. made.engine.walk ≡ first_walk (D.system 0)) }
    ensures room { IfSome result (λ made. length made.scratch.found.x ≡ (D.system 0).unknowns) }
    ensures empty { IfSome result (λ made. made.scratch.events ≡ []) }
{
    match prepare(alloc, options, stepper, worker, kernel) {
        Ok(
            Prepared {
                timeline,
                runner,
                engine,
                scratch,
            },
        ) => Some(Prepared {
            timeline: with_places(timeline),
            runner,
            engine,
            scratch,
        }),
        Err(_) => None,
    }
}

/// Runs a design on threads with these options, and writes its trace: the header with the names of the flat design, a line
/// for each event, and the last line. The solvers and the kernel are those of the named design; the kernel isn't started
/// yet. Without a solver that runs ahead, or room for it, the engine runs alone. Whatever happens ahead, the trace is that
/// of lockstep. The timeline keeps the first 65,536 notes of its calls, where memory is found for them.
pub fn trace_on_threads<
    D: Design + Send + Sync,
    S: Stepper<D> + Drop + Send,
    K: Kernel<D> + Drop,
    W: Sink + Drop,
    G: Gate,
    R: Threads + Wait + Sync,
>(
    rt: &R,
    alloc: Global,
    flat: &Flat,
    top: &str,
    options: &Options,
    stepper: S,
    worker: Option<S>,
    kernel: K,
    trace: W,
    gate: &G,
) -> Traced<D, W>
    requires part { S.part stepper ≡ 0 }
    requires worker { IfSome worker (λ ahead. S.part ahead ≡ 0) }
    requires stage { (K.state kernel).stage ≡ Unstarted }
    requires options { options.now ≡ (D.system 0).options }
    requires allowed { IsAllowed options.now }
    requires deltas { (D.system 0).deltas ≡ delta_budget }
    requires choices { (D.system 0).choices < 2 ^ 32 }
    requires cycles { (D.system 0).cycles ≡ run_budget }
    requires tries { (D.system 0).tries ≡ run_budget }
    ensures puts { Puts result.ended (trace_lines flat.now top.now options.now (events_of (lockstep (D.system 0)).works) (lockstep (D.system 0)).end)
        (W.held trace) (W.held result.trace) (W.faults trace) (W.faults result.trace) }
    ensures end { IfOk result.ended (λ end. end ≡ (lockstep (D.system 0)).end) }

    // The numbers fit lockstep's works, and the timeline its limit.
    ensures fits { OnOk result.ended (Fits (lockstep (D.system 0)).works result.own result.counts) }
    ensures within { IfSome result.timeline (λ timeline. Within options.now.ahead timeline.line) }
    ensures counts { IfSome result.timeline (λ timeline. result.counts ≡ timeline.line.journal.counts) }
{
    match prepared_of(alloc, options, stepper, worker, kernel) {
        Some(prepared) => write_run(rt, alloc, flat, top, options, prepared, trace, gate),
        None => Traced {
            ended: Err(TraceFault::Memory),
            own: 0,
            counts: NO_COUNTS,
            trace,
            timeline: None,
        },
    }
}
