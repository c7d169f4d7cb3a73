//! The engine's driver: rounds to the end of the run.

ghost use Rattle.std.specs.Prelude.{◌≡◌, ◌≤◌, ◌<◌, ◌^◌, [], true, length, OnOk, IfOk, IfErr, Err};
ghost use Rattle.lockstep_model.specs.Lockstep.{lockstep};
ghost use Rattle.lockstep_model.specs.Walk as w;
ghost use Rattle.lockstep_model.specs.Walk.{first_walk};
ghost use Rattle.lockstep_model.specs.Works.{events_of, attempts_in};
ghost use Rattle.event_sink.specs.Faults.{Rose};
ghost use Rattle.event_sink.specs.declared.SinkFault.TheVariants as faulty;
ghost use Rattle.engine_driver.specs.Standing.{IsNewSeat, CountsAll, counts_closed};

use crate::round::{Scratch, round};
use engine_replies::Reply;
use event_sink::{EventSink, SinkFault};
use lockstep_model::Moved;
use mixed_cycle::engine::Engine;
use runahead_worker::{Gate, LockedLine, Naming};
use std::sync::Wait;
use step_data::End;
use step_model::{Design, Kernel, Stepper};

/// Rounds from where an engine stands to the end of its run.
fn to_the_end<D: Design, J: Naming, S: Stepper<D>, K: Kernel<D>, T: EventSink, G: Gate, R: Wait>(
    rt: &R,
    line: &mut LockedLine<'_, D, J>,
    engine: &mut Engine<D, S, K>,
    scratch: &mut Scratch,
    sink: &mut T,
    gate: &G,
) -> Result<End, SinkFault>
    requires part { J.part ≡ 0 }
    requires ready { engine.old.walk.awaited ≡ w.Ready }
    requires own { engine.old.walk.own ≡ 0 }
    requires few { attempts_in engine.old.walk.works < 2 ^ 62 }
    requires new { IsNewSeat line.old.seat }
    requires room { length scratch.old.found.x ≡ (D.system 0).unknowns }
    requires empty { scratch.old.events ≡ [] }
    ensures events { OnOk result (T.gained sink.old sink.new (events_of engine.old.walk.works)) }
    ensures end { IfOk result (λ end. end ≡ engine.old.walk.end) }
    ensures counts { OnOk result (CountsAll engine.old.walk.works engine.new.walk.own line.new.seat) }
    ensures stopped { IfErr result (λ fault. T.stopped fault sink.old sink.new (events_of engine.old.walk.works)) }
    ensures rose { result ≡ Err faulty.Failed → Rose (T.faults sink.old) (T.faults sink.new) }
    ensures later { T.faults sink.old ≤ T.faults sink.new }
{
    let mut reply = Reply::None;
    loop {
        let turn = match round(rt, line, engine, reply, scratch, sink, gate) {
            Ok(turn) => turn,
            Err(fault) => return Err(fault),
        };
        if let Moved::Ended(end) = turn.said {
            return Ok(end);
        }
        reply = turn.reply;
    }
}

/// Drives a new engine to the end of its run, with the line, and closes the line on every way out. Whatever the worker does,
/// the sink takes in lockstep's events, and the end is lockstep's. It fails where the sink fails and for want of memory alone.
#[tactic(auto, using(crate::specs::Standing::counts_closed))]
pub fn drive<D: Design, J: Naming, S: Stepper<D>, K: Kernel<D>, T: EventSink, G: Gate, R: Wait>(
    rt: &R,
    line: &mut LockedLine<'_, D, J>,
    engine: &mut Engine<D, S, K>,
    scratch: &mut Scratch,
    sink: &mut T,
    gate: &G,
) -> Result<End, SinkFault>
    requires part { J.part ≡ 0 }
    requires fresh { engine.old.walk ≡ first_walk (D.system 0) }
    requires few { attempts_in (lockstep (D.system 0)).works < 2 ^ 62 }
    requires new { IsNewSeat line.old.seat }
    requires room { length scratch.old.found.x ≡ (D.system 0).unknowns }
    requires empty { scratch.old.events ≡ [] }
    ensures events { OnOk result (T.gained sink.old sink.new (events_of (lockstep (D.system 0)).works)) }
    ensures end { IfOk result (λ end. end ≡ (lockstep (D.system 0)).end) }

    // Own attempts are the looks that answered Nothing; with those that answered Here they are lockstep's attempts.
    ensures counts { OnOk result (CountsAll (lockstep (D.system 0)).works engine.new.walk.own line.new.seat) }
    ensures closed { line.new.closed ≡ true }

    // A front of lockstep's events was taken in.
    ensures stopped { IfErr result (λ fault. T.stopped fault sink.old sink.new (events_of (lockstep (D.system 0)).works)) }
    ensures rose { result ≡ Err faulty.Failed → Rose (T.faults sink.old) (T.faults sink.new) }
    ensures later { T.faults sink.old ≤ T.faults sink.new }
{
    let ended = to_the_end(rt, line, engine, scratch, sink, gate);
    line.close(rt);
    ended
}
