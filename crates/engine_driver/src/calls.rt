//! The call of the locked line that a move asks for.

ghost use Rattle.std.specs.Prelude.{◌≡◌, length};
ghost use Rattle.step_model.specs.System.{attempt as attempt_of};
ghost use Rattle.lockstep_model.specs.Walk as w;
ghost use Rattle.lockstep_model.specs.Walk.{Fits, Awaits};
ghost use Rattle.mixed_cycle.specs.Asking.{StepsFrom};
ghost use Rattle.engine_replies.specs.declared.reply.Reply.TheVariants as replies;
ghost use Rattle.engine_replies.specs.Replying.{reply_by};
ghost use Rattle.runahead_worker.specs.Seats.{began, looked, called};
ghost use Rattle.engine_driver.specs.Said.{IsLookReply, ReplyFor, looked_of, seat_said, fits_look};

use engine_replies::Reply;
use fix_core::Tick;
use lockstep_model::{Ask, Moved};
use mixed_cycle::engine::Engine;
use runahead_worker::{LockedLine, Naming};
use std::sync::Wait;
use step_data::{Attempt, Frame, Tip};
use step_model::{Design, Kernel, Stepper};
use timeline::Looked;

/// The line begins anew from a tip under a frame.
fn begin_at<D: Design, J: Naming, R: Wait>(
    rt: &R,
    line: &mut LockedLine<'_, D, J>,
    tip: &Tip,
    frame: &Frame,
)
    requires part { J.part ≡ 0 }
    requires steps { StepsFrom (D.system 0) frame.now tip.now }
    ensures seat { line.new.seat ≡ began line.old.seat }
    ensures closed { line.new.closed ≡ line.old.closed }
{
    line.begin(rt, tip, frame);
}

/// What the line shows of the next attempt.
fn look_at<D: Design, J: Naming, R: Wait>(
    rt: &R,
    line: &mut LockedLine<'_, D, J>,
    tip: &Tip,
    frame: &Frame,
    until: Tick,
    found: &mut Attempt,
) -> Reply
    requires part { J.part ≡ 0 }
    requires room { length found.old.x ≡ (D.system 0).unknowns }
    ensures kind { IsLookReply result }
    ensures attempt { result ≡ replies.Here → found.new ≡ attempt_of (D.system 0) frame.now tip.now }
    ensures seat { line.new.seat ≡ looked (looked_of result) line.old.seat }
    ensures closed { line.new.closed ≡ line.old.closed }
    ensures length { length found.new.x ≡ (D.system 0).unknowns }
{
    match line.look(rt, tip, frame, until, found) {
        Looked::Here => Reply::Here,
        Looked::Nothing => Reply::Nothing,
    }
}

/// The attempts begin anew.
fn begin<D: Design, J: Naming, S: Stepper<D>, K: Kernel<D>, R: Wait>(
    rt: &R,
    line: &mut LockedLine<'_, D, J>,
    engine: &Engine<D, S, K>,
)
    requires part { J.part ≡ 0 }
    requires ready { engine.now.walk.awaited ≡ w.Ready }
    ensures seat { line.new.seat ≡ began line.old.seat }
    ensures closed { line.new.closed ≡ line.old.closed }
{
    let frame = engine.frame();
    let tip = engine.tip();
    begin_at(rt, line, tip, frame);
}

/// A look for the next attempt.
#[tactic(auto, using(crate::specs::Said::fits_look))]
fn look<D: Design, J: Naming, S: Stepper<D>, K: Kernel<D>, R: Wait>(
    rt: &R,
    line: &mut LockedLine<'_, D, J>,
    engine: &Engine<D, S, K>,
    until: Tick,
    found: &mut Attempt,
) -> Reply
    requires part { J.part ≡ 0 }
    requires looking { engine.now.walk.awaited ≡ w.Looking }
    requires room { length found.old.x ≡ (D.system 0).unknowns }
    ensures kind { IsLookReply result }
    ensures fits { Fits (attempt_of (D.system 0)) engine.now.walk engine.now.walk.awaited (reply_by result found.new) }
    ensures seat { line.new.seat ≡ looked (looked_of result) line.old.seat }
    ensures closed { line.new.closed ≡ line.old.closed }
    ensures length { length found.new.x ≡ (D.system 0).unknowns }
{
    let frame = engine.frame();
    let tip = engine.tip();
    look_at(rt, line, tip, frame, until, found)
}

/// The call of the line that a move asks for, and its reply.
pub fn call<D: Design, J: Naming, S: Stepper<D>, K: Kernel<D>, R: Wait>(
    rt: &R,
    line: &mut LockedLine<'_, D, J>,
    engine: &Engine<D, S, K>,
    said: &Moved,
    found: &mut Attempt,
) -> Reply
    requires part { J.part ≡ 0 }
    requires awaits { Awaits engine.now.walk said.now }
    requires room { length found.old.x ≡ (D.system 0).unknowns }
    ensures kind { ReplyFor said.now result }
    ensures fits { Fits (attempt_of (D.system 0)) engine.now.walk engine.now.walk.awaited (reply_by result found.new) }
    ensures seat { line.new.seat ≡ seat_said said.now result line.old.seat }
    ensures closed { line.new.closed ≡ line.old.closed }
    ensures length { length found.new.x ≡ (D.system 0).unknowns }
{
    match said {
        Moved::Ended(_) => Reply::None,
        Moved::Ask(Ask::None) => Reply::None,
        Moved::Ask(Ask::Begin) => {
            begin(rt, line, engine);
            Reply::None
        }
        Moved::Ask(Ask::Look { until }) => look(rt, line, engine, *until, found),
        Moved::Ask(Ask::Consume) => {
            let tip = engine.tip();
            let frame = engine.frame();
            Reply::Consumed(line.consume(rt, tip, frame))
        }
    }
}
