//! The steps of a replay to the end of its run, whose events are written.
ghost use Rattle.std.specs.Prelude.{◌≡◌, ℕ, [], replicate, OnOk, IfOk};
ghost use Rattle.lockstep_model.specs.Walk.{EndsAll, Falls};
ghost use Rattle.lockstep_model.specs.Works.{events_of};
ghost use Rattle.step_schedule.specs.declared.Step.TheVariants as whose;
ghost use Rattle.core_steps.specs.States.{first_state, stepped, stepped_all, said, by_engine};
ghost use Rattle.core_steps.specs.Ending.{Nears};
ghost use Rattle.trace_sink.specs.Puts.{Puts};
ghost use Rattle.trace_lines.specs.Lines.{event_lines};
ghost use Rattle.replay_run.specs.PutsSome.{PutsSome};
ghost use Rattle.replay_model.specs.Replays.{IsEnough, replayed};

use core_steps::CoreOfTwo;
use flat_design::Enumeration;
use lockstep_model::Moved;
use port_io::Sink;
use step_data::{End, EventList};
use step_model::{Design, Kernel, Stepper};
use step_schedule::Step;
use trace_lines::put_events;
use trace_sink::TraceFault;

/// Writes the lines of events, which are taken out of their list.
fn put_list<W: Sink>(
    out: &mut EventList,
    enums: &[Enumeration],
    room: &mut Vec<u8>,
    trace: &mut W,
) -> Result<(), TraceFault>
    ensures puts { Puts result (event_lines enums.now out.old) (W.held trace.old) (W.held trace.new) (W.faults trace.old) (W.faults trace.new) }
    ensures list { OnOk result (out.new ≡ []) }
{
    match put_events(out.as_slice(), enums, room, trace) {
        Ok(()) => {
            out.clear();
            Ok(())
        }
        Err(fault) => Err(fault),
    }
}

/// A step, whose events are written.
fn turn<D: Design, S: Stepper<D>, K: Kernel<D>, W: Sink>(
    core: &mut CoreOfTwo<D, S, K>,
    step: Step,
    enums: &[Enumeration],
    out: &mut EventList,
    room: &mut Vec<u8>,
    trace: &mut W,
) -> Result<Moved, TraceFault>
    requires list { out.old ≡ [] }
    ensures puts { PutsSome result (event_lines enums.now (events_of core.old.led.walk.works)) (event_lines enums.now (events_of core.new.led.walk.works))
        (W.held trace.old) (W.held trace.new) (W.faults trace.old) (W.faults trace.new) }
    ensures list { OnOk result (out.new ≡ []) }
    ensures state { OnOk result (core.new ≡ stepped (D.system 0) step core.old) }
    ensures says { IfOk result (λ m. m ≡ said step core.old) }
    ensures end { OnOk result (core.new.led.walk.end ≡ core.old.led.walk.end) }
    ensures ended { IfOk result (EndsAll core.new.led.walk) }
    ensures falls { step ≡ whose.D → IfOk result (Falls core.old.led.walk core.new.led.walk) }
    ensures nears { OnOk result (Nears (by_engine step) core.old core.new) }
{
    match core.step(step, out) {
        Ok(said) => match put_list(out, enums, room, trace) {
            Ok(()) => Ok(said),
            Err(fault) => Err(fault),
        },
        Err(_) => Err(TraceFault::Memory),
    }
}

/// The steps of a schedule.
fn put_schedule<D: Design, S: Stepper<D>, K: Kernel<D>, W: Sink>(
    core: &mut CoreOfTwo<D, S, K>,
    schedule: &[Step],
    enums: &[Enumeration],
    out: &mut EventList,
    room: &mut Vec<u8>,
    trace: &mut W,
) -> Result<(), TraceFault>
    requires list { out.old ≡ [] }
    ensures puts { PutsSome result (event_lines enums.now (events_of core.old.led.walk.works)) (event_lines enums.now (events_of core.new.led.walk.works))
        (W.held trace.old) (W.held trace.new) (W.faults trace.old) (W.faults trace.new) }
    ensures list { OnOk result (out.new ≡ []) }
    ensures state { OnOk result (core.new ≡ stepped_all (D.system 0) schedule.now core.old) }
    ensures end { OnOk result (core.new.led.walk.end ≡ core.old.led.walk.end) }
    ensures nears { OnOk result (Nears 0 core.old core.new) }
{
    for step in schedule {
        match turn(core, *step, enums, out, room, trace) {
            Ok(_) => {}
            Err(fault) => return Err(fault),
        }
    }
    Ok(())
}

/// The engine's steps to the end.
fn put_rest<D: Design, S: Stepper<D>, K: Kernel<D>, W: Sink>(
    core: &mut CoreOfTwo<D, S, K>,
    enums: &[Enumeration],
    out: &mut EventList,
    room: &mut Vec<u8>,
    trace: &mut W,
) -> Result<End, TraceFault>
    requires list { out.old ≡ [] }
    ensures puts { Puts result (event_lines enums.now (events_of core.old.led.walk.works))
        (W.held trace.old) (W.held trace.new) (W.faults trace.old) (W.faults trace.new) }
    ensures end { IfOk result (λ end. end ≡ core.old.led.walk.end) }
    ensures state { (n : ℕ) → IsEnough n core.old → OnOk result (core.new ≡ stepped_all (D.system 0) (replicate n whose.D) core.old) }
{
    loop {
        match turn(core, Step::D, enums, out, room, trace) {
            Ok(Moved::Ended(end)) => return Ok(end),
            Ok(Moved::Ask(_)) => {}
            Err(fault) => return Err(fault),
        }
    }
}

/// All steps of a replay, from the first state on.
pub fn put_steps<D: Design, S: Stepper<D>, K: Kernel<D>, W: Sink>(
    core: &mut CoreOfTwo<D, S, K>,
    schedule: &[Step],
    enums: &[Enumeration],
    out: &mut EventList,
    room: &mut Vec<u8>,
    trace: &mut W,
) -> Result<End, TraceFault>
    requires fresh { core.old ≡ first_state (D.system 0) }
    requires list { out.old ≡ [] }
    ensures puts { Puts result (event_lines enums.now (events_of core.old.led.walk.works))
        (W.held trace.old) (W.held trace.new) (W.faults trace.old) (W.faults trace.new) }
    ensures end { IfOk result (λ end. end ≡ core.old.led.walk.end) }
    ensures state { OnOk result (core.new ≡ replayed (D.system 0) schedule.now) }
{
    match put_schedule(core, schedule, enums, out, room, trace) {
        Ok(()) => put_rest(core, enums, out, room, trace),
        Err(fault) => Err(fault),
    }
}
