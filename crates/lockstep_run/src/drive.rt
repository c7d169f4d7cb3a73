//! The moves of an engine to the end of a run. No attempt is saved ahead: each look finds nothing.
ghost use Rattle.std.specs.Prelude.{◌≡◌, [], OnOk, IfOk};
ghost use Rattle.step_model.specs.System.{attempt as attempt_of};
ghost use Rattle.lockstep_model.specs.Walk.{Fits, NoReply, Awaits, EndsAll, Falls, moved, reply_of};
ghost use Rattle.lockstep_model.specs.Works.{events_of};
ghost use Rattle.mixed_cycle.specs.Moving.{FitsIn};
ghost use Rattle.trace_sink.specs.Puts.{Puts};
ghost use Rattle.trace_lines.specs.Lines.{event_lines};
ghost use Rattle.lockstep_run.specs.Replies.{reply_behind};

use flat_design::Enumeration;
use lockstep_model::{Answer, Ask, Moved};
use mixed_cycle::engine::Engine;
use port_io::Sink;
use step_data::{End, EventList};
use step_model::{Design, Kernel, Stepper};
use trace_lines::put_events;
use trace_sink::TraceFault;

/// The reply to what a move says.
fn reply_to<'a>(said: &Moved) -> Answer<'a>
    ensures { reply_of result ≡ reply_behind said.now }
{
    match said {
        Moved::Ended(_) | Moved::Ask(Ask::None | Ask::Begin) => Answer::None,
        Moved::Ask(Ask::Look { .. }) => Answer::Nothing,
        Moved::Ask(Ask::Consume) => Answer::Consumed(true),
    }
}

/// Writes the lines of events, which are taken out of their list.
fn put_list<W: Sink>(
    out: &mut EventList,
    enums: &[Enumeration],
    room: &mut Vec<u8>,
    trace: &mut W,
) -> Result<(), TraceFault>
    ensures puts { Puts result (event_lines enums.now out.old) (W.held trace.old) (W.held trace.new) (W.faults trace.old) (W.faults trace.new) }
    ensures list { OnOk result (out.new ≡ []) }
{
    match put_events(out.as_slice(), enums, room, trace) {
        Ok(()) => {
            out.clear();
            Ok(())
        }
        Err(fault) => Err(fault),
    }
}

/// A move, whose events are written.
fn turn<D: Design, S: Stepper<D>, K: Kernel<D>, W: Sink>(
    engine: &mut Engine<D, S, K>,
    answer: &Answer,
    enums: &[Enumeration],
    out: &mut EventList,
    room: &mut Vec<u8>,
    trace: &mut W,
) -> Result<Moved, TraceFault>
    requires fits { Fits (attempt_of (D.system 0)) engine.old.walk engine.old.walk.awaited (reply_of answer.now) }
    requires room { FitsIn (D.system 0).unknowns (reply_of answer.now) }
    requires list { out.old ≡ [] }
    ensures puts { Puts result (event_lines enums.now (moved engine.old.walk (reply_of answer.now)).events)
        (W.held trace.old) (W.held trace.new) (W.faults trace.old) (W.faults trace.new) }
    ensures walk { OnOk result (engine.new.walk ≡ (moved engine.old.walk (reply_of answer.now)).walk) }
    ensures list { OnOk result (out.new ≡ []) }
    ensures end { OnOk result (engine.new.walk.end ≡ engine.old.walk.end) }
    ensures ended { IfOk result (EndsAll engine.new.walk) }
    ensures awaits { IfOk result (Awaits engine.new.walk) }
    ensures falls { IfOk result (Falls engine.old.walk engine.new.walk) }
{
    match engine.move_once(answer, out) {
        Ok(said) => match put_list(out, enums, room, trace) {
            Ok(()) => Ok(said),
            Err(fault) => Err(fault),
        },
        Err(_) => Err(TraceFault::Memory),
    }
}

/// All moves that are left. Their events are written, and the end is told.
pub fn drive<D: Design, S: Stepper<D>, K: Kernel<D>, W: Sink>(
    engine: &mut Engine<D, S, K>,
    enums: &[Enumeration],
    out: &mut EventList,
    room: &mut Vec<u8>,
    trace: &mut W,
) -> Result<End, TraceFault>
    requires fits { Fits (attempt_of (D.system 0)) engine.old.walk engine.old.walk.awaited NoReply }
    requires list { out.old ≡ [] }
    ensures puts { Puts result (event_lines enums.now (events_of engine.old.walk.works))
        (W.held trace.old) (W.held trace.new) (W.faults trace.old) (W.faults trace.new) }
    ensures end { IfOk result (λ end. end ≡ engine.old.walk.end) }
{
    let mut answer = Answer::None;
    loop {
        match turn(engine, &answer, enums, out, room, trace) {
            Ok(Moved::Ended(end)) => return Ok(end),
            Ok(said) => answer = reply_to(&said),
            Err(fault) => return Err(fault),
        }
    }
}
