//! One round of the engine: a move, the call of the line that it asks for, and its events.

ghost use Rattle.std.specs.Prelude.{◌≡◌, ◌≤◌, [], length, OnOk, OnErr, IfOk, IfErr, Err};
ghost use Rattle.step_model.specs.System.{attempt as attempt_of};
ghost use Rattle.lockstep_model.specs.Walk.{Fits, moved, Awaits, Begins, EndsAll, Spends, OwnsOne, Falls};
ghost use Rattle.lockstep_model.specs.Works.{events_of};
ghost use Rattle.engine_replies.specs.Replying.{reply_by};
ghost use Rattle.event_sink.specs.Faults.{Rose};
ghost use Rattle.event_sink.specs.declared.SinkFault.TheVariants as faulty;
ghost use Rattle.engine_driver.specs.Said.{ReplyFor, seat_said};

use crate::calls::call;
use engine_replies::Reply;
use event_sink::{EventSink, SinkFault};
use lockstep_model::Moved;
use mixed_cycle::engine::Engine;
use runahead_worker::{Gate, LockedLine, Naming, Place};
use std::alloc::{AllocError, Global};
use std::sync::Wait;
use step_data::{Attempt, EventList};
use step_model::{Design, Kernel, Stepper};

/// Room for the attempt that is found and for the events of a move. Their memory is kept from move to move.
#[derive(Drop)]
pub struct Scratch {
    pub found: Attempt,
    pub events: EventList,
}

impl Scratch {
    pub fn new(alloc: Global, unknowns: usize) -> Result<Scratch, AllocError>
        ensures room { IfOk result (λ scratch. length scratch.found.x ≡ unknowns) }
        ensures empty { IfOk result (λ scratch. scratch.events ≡ []) }
    {
        let found = Attempt::blank(alloc, unknowns)?;
        Ok(Scratch {
            found,
            events: EventList::new(alloc),
        })
    }
}

/// What a move said, and the reply to what it asks.
#[derive(Clone, Copy)]
pub struct Turn {
    pub said: Moved,
    pub reply: Reply,
}

/// A move between its two places of the gate.
fn pass_move<D: Design, S: Stepper<D>, K: Kernel<D>, G: Gate, R: Wait>(
    rt: &R,
    engine: &mut Engine<D, S, K>,
    reply: Reply,
    found: &Attempt,
    events: &mut EventList,
    gate: &G,
) -> Result<Moved, AllocError>
    requires fits { Fits (attempt_of (D.system 0)) engine.old.walk engine.old.walk.awaited (reply_by reply found.now) }
    requires room { length found.now.x ≡ (D.system 0).unknowns }
    requires empty { events.old ≡ [] }
    ensures walk { OnOk result (engine.new.walk ≡ (moved engine.old.walk (reply_by reply found.now)).walk) }
    ensures says { IfOk result (λ said. said ≡ (moved engine.old.walk (reply_by reply found.now)).says) }
    ensures events { OnOk result (events.new ≡ (moved engine.old.walk (reply_by reply found.now)).events) }
    ensures awaits { IfOk result (λ said. Awaits engine.new.walk said) }
    ensures ended { IfOk result (λ said. EndsAll engine.new.walk said) }
    ensures spends { OnOk result (Spends engine.old.walk engine.new.walk (reply_by reply found.now)) }
    ensures owns { OnOk result (OwnsOne engine.old.walk engine.new.walk (reply_by reply found.now)) }
    ensures begins { OnOk result (Begins engine.old.walk (reply_by reply found.now) (moved engine.old.walk (reply_by reply found.now))) }
    ensures falls { IfOk result (λ said. Falls engine.old.walk engine.new.walk said) }
{
    gate.pass(rt, Place::Move);
    let cycles = engine.cycles();
    let answer = reply.answer(found);
    let said = engine.move_once(&answer, events)?;
    if engine.cycles() != cycles {
        gate.pass(rt, Place::Cycled);
    }
    Ok(said)
}

/// A move, the call of the line that it asks for, and its events handed to the sink. Behind it none is left over.
pub fn round<D: Design, J: Naming, S: Stepper<D>, K: Kernel<D>, T: EventSink, G: Gate, R: Wait>(
    rt: &R,
    line: &mut LockedLine<'_, D, J>,
    engine: &mut Engine<D, S, K>,
    reply: Reply,
    scratch: &mut Scratch,
    sink: &mut T,
    gate: &G,
) -> Result<Turn, SinkFault>
    requires part { J.part ≡ 0 }
    requires fits { Fits (attempt_of (D.system 0)) engine.old.walk engine.old.walk.awaited (reply_by reply scratch.old.found) }
    requires room { length scratch.old.found.x ≡ (D.system 0).unknowns }
    requires empty { scratch.old.events ≡ [] }
    ensures walk { OnOk result (engine.new.walk ≡ (moved engine.old.walk (reply_by reply scratch.old.found)).walk) }
    ensures says { IfOk result (λ turn. turn.said ≡ (moved engine.old.walk (reply_by reply scratch.old.found)).says) }
    ensures gained { OnOk result (T.gained sink.old sink.new (moved engine.old.walk (reply_by reply scratch.old.found)).events) }
    ensures kind { IfOk result (λ turn. ReplyFor turn.said turn.reply) }
    ensures fits { IfOk result (λ turn. Fits (attempt_of (D.system 0)) engine.new.walk engine.new.walk.awaited (reply_by turn.reply scratch.new.found)) }
    ensures seat { IfOk result (λ turn. line.new.seat ≡ seat_said turn.said turn.reply line.old.seat) }
    ensures room { OnOk result (length scratch.new.found.x ≡ (D.system 0).unknowns) }
    ensures empty { OnOk result (scratch.new.events ≡ []) }
    ensures ended { IfOk result (λ turn. EndsAll engine.new.walk turn.said) }
    ensures spends { OnOk result (Spends engine.old.walk engine.new.walk (reply_by reply scratch.old.found)) }
    ensures owns { OnOk result (OwnsOne engine.old.walk engine.new.walk (reply_by reply scratch.old.found)) }
    ensures begins { OnOk result (Begins engine.old.walk (reply_by reply scratch.old.found) (moved engine.old.walk (reply_by reply scratch.old.found))) }
    ensures falls { IfOk result (λ turn. Falls engine.old.walk engine.new.walk turn.said) }

    // A front of the events that were left was taken in.
    ensures stopped { IfErr result (λ fault. T.stopped fault sink.old sink.new (events_of engine.old.walk.works)) }
    ensures rose { result ≡ Err faulty.Failed → Rose (T.faults sink.old) (T.faults sink.new) }
    ensures later { T.faults sink.old ≤ T.faults sink.new }
{
    let said = match pass_move(rt, engine, reply, &scratch.found, &mut scratch.events, gate) {
        Ok(said) => said,
        Err(_) => return Err(SinkFault::Memory),
    };
    let reply = call(rt, line, engine, &said, &mut scratch.found);
    match sink.take_in(&scratch.events) {
        Ok(()) => {}
        Err(fault) => return Err(fault),
    }
    scratch.events.clear();
    Ok(Turn { said, reply })
}
