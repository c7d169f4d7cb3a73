//! The moves of an engine to the end of a run. No attempt is saved ahead: each look finds nothing.
ghost use Rattle.std.specs.Prelude.{◌≡◌, ◌+◌, ◌*◌, ◌<◌, ◌^◌, [], OnOk, IfOk};
ghost use Rattle.step_model.specs.System.{attempt as attempt_of};
ghost use Rattle.lockstep_model.specs.Walk.{Fits, NoReply, Awaits, EndsAll, Falls, Spends, moved, moves_left, reply_of};
ghost use Rattle.lockstep_model.specs.Works.{events_of, attempts_in};
ghost use Rattle.mixed_cycle.specs.Moving.{FitsIn};
ghost use Rattle.run_counts.specs.Counts.{gained, total};
ghost use Rattle.counted_run.specs.Replies.{reply_behind};

use lockstep_model::{Answer, Ask, Moved};
use mixed_cycle::engine::Engine;
use run_counts::{EventCounts, count_events};
use std::alloc::AllocError;
use step_data::{End, EventList};
use step_model::{Design, Kernel, Stepper};

/// The reply to an ask.
fn reply_to<'a>(ask: Ask) -> Answer<'a>
    ensures { reply_of result ≡ reply_behind ask }
{
    match ask {
        Ask::None | Ask::Begin => Answer::None,
        Ask::Look { .. } => Answer::Nothing,
        Ask::Consume => Answer::Consumed(true),
    }
}

/// Counts events, which are taken out of their list.
fn count_list(out: &mut EventList, counts: &mut EventCounts)
    requires { total counts.old + 2 ^ 64 < 2 ^ 128 }
    ensures counts { counts.new ≡ gained counts.old out.old }
    ensures few { total counts.new < total counts.old + 2 ^ 64 }
    ensures list { out.new ≡ [] }
{
    count_events(counts, out.as_slice());
    out.clear();
}

/// A move, whose events are counted.
fn turn<D: Design, S: Stepper<D>, K: Kernel<D>>(
    engine: &mut Engine<D, S, K>,
    answer: &Answer,
    out: &mut EventList,
    counts: &mut EventCounts,
) -> Result<Moved, AllocError>
    requires fits { Fits (attempt_of (D.system 0)) engine.old.walk engine.old.walk.awaited (reply_of answer.now) }
    requires room { FitsIn (D.system 0).unknowns (reply_of answer.now) }
    requires list { out.old ≡ [] }
    requires few { total counts.old + 2 ^ 64 < 2 ^ 128 }
    ensures counts { OnOk result (counts.new ≡ gained counts.old (moved engine.old.walk (reply_of answer.now)).events) }
    ensures few { OnOk result (total counts.new < total counts.old + 2 ^ 64) }
    ensures walk { OnOk result (engine.new.walk ≡ (moved engine.old.walk (reply_of answer.now)).walk) }
    ensures list { OnOk result (out.new ≡ []) }
    ensures end { OnOk result (engine.new.walk.end ≡ engine.old.walk.end) }
    ensures spends { OnOk result (Spends engine.old.walk engine.new.walk (reply_of answer.now)) }
    ensures ended { IfOk result (EndsAll engine.new.walk) }
    ensures awaits { IfOk result (Awaits engine.new.walk) }
    ensures falls { IfOk result (Falls engine.old.walk engine.new.walk) }
{
    let said = engine.move_once(answer, out)?;
    count_list(out, counts);
    Ok(said)
}

/// All moves that are left. Their events are counted, and the end is told.
pub fn drive<D: Design, S: Stepper<D>, K: Kernel<D>>(
    engine: &mut Engine<D, S, K>,
    out: &mut EventList,
    counts: &mut EventCounts,
) -> Result<End, AllocError>
    requires fits { Fits (attempt_of (D.system 0)) engine.old.walk engine.old.walk.awaited NoReply }
    requires list { out.old ≡ [] }
    requires few { total counts.old + (moves_left engine.old.walk + 1) * 2 ^ 64 < 2 ^ 128 }
    requires attempts { engine.old.walk.own + attempts_in engine.old.walk.works < 2 ^ 63 }
    ensures counts { OnOk result (counts.new ≡ gained counts.old (events_of engine.old.walk.works)) }
    ensures attempts { OnOk result (engine.new.walk.own ≡ engine.old.walk.own + attempts_in engine.old.walk.works) }
    ensures end { IfOk result (λ end. end ≡ engine.old.walk.end) }
{
    let mut answer = Answer::None;
    loop {
        let said = turn(engine, &answer, out, counts)?;
        match said {
            Moved::Ended(end) => return Ok(end),
            Moved::Ask(ask) => answer = reply_to(ask),
        }
    }
}
