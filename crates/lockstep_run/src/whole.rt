//! A whole run.
ghost use Rattle.std.specs.Prelude.{◌≡◌, ◌<◌, ◌^◌, IfOk};
ghost use Rattle.step_data.specs.Options.{IsAllowed};
ghost use Rattle.step_model.specs.declared.kernel_stage.KernelStage.TheVariants.{Unstarted};
ghost use Rattle.step_model.specs.System.{attempt as attempt_of};
ghost use Rattle.lockstep_model.specs.Lockstep.{lockstep};
ghost use Rattle.lockstep_model.specs.Walk.{Fits, NoReply};
ghost use Rattle.lockstep_model.specs.Works.{events_of};
ghost use Rattle.run_place.specs.Budgets.{delta_budget, run_budget};
ghost use Rattle.trace_text.specs.Trace.{end_line};
ghost use Rattle.trace_sink.specs.Puts.{Puts, PutsLine};
ghost use Rattle.trace_lines.specs.Lines.{work_lines, trace_lines};

use crate::drive::drive;
use flat_design::{Enumeration, Flat};
use mixed_cycle::engine::Engine;
use port_io::Sink;
use std::alloc::Global;
use step_data::{End, EventList, Options};
use step_model::{Design, Kernel, Stepper};
use trace_lines::{put_end, put_header};
use trace_sink::TraceFault;

/// Writes the last line.
fn end_with<W: Sink>(end: End, room: &mut Vec<u8>, trace: &mut W) -> Result<End, TraceFault>
    ensures puts { PutsLine result (end_line end) (W.held trace.old) (W.held trace.new) (W.faults trace.old) (W.faults trace.new) }
    ensures end { IfOk result (λ told. told ≡ end) }
{
    match put_end(&end, room, trace) {
        Ok(()) => Ok(end),
        Err(fault) => Err(fault),
    }
}

/// Writes the lines of all that is left of a run, and the last line.
fn write_works<D: Design, S: Stepper<D>, K: Kernel<D>, W: Sink>(
    alloc: Global,
    engine: &mut Engine<D, S, K>,
    enums: &[Enumeration],
    room: &mut Vec<u8>,
    trace: &mut W,
) -> Result<End, TraceFault>
    requires fits { Fits (attempt_of (D.system 0)) engine.old.walk engine.old.walk.awaited NoReply }
    ensures puts { Puts result (work_lines enums.now (events_of engine.old.walk.works) engine.old.walk.end)
        (W.held trace.old) (W.held trace.new) (W.faults trace.old) (W.faults trace.new) }
    ensures end { IfOk result (λ end. end ≡ engine.old.walk.end) }
{
    let mut out = EventList::new(alloc);
    match drive(engine, enums, &mut out, room, trace) {
        Ok(end) => end_with(end, room, trace),
        Err(fault) => Err(fault),
    }
}

/// Writes the whole trace of a run that is before its start.
fn write_run<D: Design, S: Stepper<D>, K: Kernel<D>, W: Sink>(
    alloc: Global,
    flat: &Flat,
    top: &str,
    options: &Options,
    engine: &mut Engine<D, S, K>,
    trace: &mut W,
) -> Result<End, TraceFault>
    requires fits { Fits (attempt_of (D.system 0)) engine.old.walk engine.old.walk.awaited NoReply }
    ensures puts { Puts result (trace_lines flat.now top.now options.now (events_of engine.old.walk.works) engine.old.walk.end)
        (W.held trace.old) (W.held trace.new) (W.faults trace.old) (W.faults trace.new) }
    ensures end { IfOk result (λ end. end ≡ engine.old.walk.end) }
{
    let mut room = Vec::new(alloc);
    match put_header(flat, top, options, &mut room, trace) {
        Ok(()) => write_works(alloc, engine, flat.enumerations(), &mut room, trace),
        Err(fault) => Err(fault),
    }
}

/// Runs a design in lockstep with these options, and writes its trace: the header with the names of the flat design, a line
/// for each event, and the last line. The solver and the kernel are those of the named design; the kernel isn't started yet.
/// All memory that doesn't grow with the events of one move is taken before the first line.
pub fn run_in_lockstep<D: Design, S: Stepper<D> + Drop, K: Kernel<D> + Drop, W: Sink>(
    alloc: Global,
    flat: &Flat,
    top: &str,
    options: &Options,
    stepper: S,
    kernel: K,
    trace: &mut W,
) -> Result<End, TraceFault>
    requires part { S.part stepper ≡ 0 }
    requires stage { (K.state kernel).stage ≡ Unstarted }
    requires options { options.now ≡ (D.system 0).options }
    requires allowed { IsAllowed options.now }
    requires deltas { (D.system 0).deltas ≡ delta_budget }
    requires choices { (D.system 0).choices < 2 ^ 32 }
    requires cycles { (D.system 0).cycles ≡ run_budget }
    requires tries { (D.system 0).tries ≡ run_budget }
    ensures puts { Puts result (trace_lines flat.now top.now options.now (events_of (lockstep (D.system 0)).works) (lockstep (D.system 0)).end)
        (W.held trace.old) (W.held trace.new) (W.faults trace.old) (W.faults trace.new) }
    ensures end { IfOk result (λ end. end ≡ (lockstep (D.system 0)).end) }
{
    match Engine::new(stepper, kernel, *options, alloc) {
        Ok(mut engine) => write_run(alloc, flat, top, options, &mut engine, trace),
        Err(_) => Err(TraceFault::Memory),
    }
}
