//! The engine with the reply to its last ask: each move is followed by the call of the timeline that it asks for.

ghost use Rattle.std.specs.Prelude.{◌≡◌, ◌++◌, IsErr, OnOk, OnErr, IfOk, length};
ghost use Rattle.step_model.specs.Kernel.{AddsFront};
ghost use Rattle.run_place.specs.Giving.{Gave};
ghost use Rattle.step_model.specs.System.{attempt as attempt_of};
ghost use Rattle.lockstep_model.specs.Walk as w;
ghost use Rattle.lockstep_model.specs.Walk.{Fits, NoReply, moved, Awaits, Begins, EndsAll, Spends, OwnsOne, Falls};
ghost use Rattle.lockstep_model.specs.Works.{events_of};
ghost use Rattle.mixed_cycle.specs.Asking.{StepsFrom};
ghost use Rattle.timeline.specs.Line.{begun, look_reply, after_look};
ghost use Rattle.engine_replies.specs.Replying.{reply_by};
ghost use Rattle.core_hands.specs.Moves.{found_by, reply_said, line_said, led_on, line_led};

use engine_replies::Reply;
use fix_core::Tick;
use lockstep_model::{Ask, Moved};
use mixed_cycle::engine::Engine;
use std::alloc::{AllocError, Global};
use std::marker::Model;
use step_data::{Attempt, EventList, Frame, Tip};
use step_model::{Design, Kernel, Stepper};
use timeline::{Looked, Timeline};

/// An engine, and the reply to its last ask. Callers see the walk that is left, and that reply.
#[derive(Drop)]
pub struct Leader<D: Design, S: Stepper<D>, K: Kernel<D>> {
    engine: Engine<D, S, K>,
    /// The attempt that was found.
    found: Attempt,
    reply: Reply,
}

impl<D: Design, S: Stepper<D>, K: Kernel<D>> Model for Leader<D, S, K> {
    ghost use Rattle.core_hands.specs.Moves.{Led};

    ghost Value = { Led };

    ghost use Rattle.engine_replies.specs.Replying.{reply_by};
    ghost use Rattle.core_hands.specs.Kept.{LeaderKept};

    ghost view = { λ a. record { walk = a.engine.walk; reply = reply_by a.reply a.found } };

    ghost invariant = { λ a. LeaderKept (D.system 0) a.engine.walk (reply_by a.reply a.found) a.found };
}

/// A timeline of part 0 begins anew from a tip under a frame.
fn begin_at<D: Design>(line: &mut Timeline<D>, tip: &Tip, frame: &Frame)
    requires part { line.old.part ≡ 0 }
    requires steps { StepsFrom (D.system 0) frame.now tip.now }
    ensures { line.new ≡ record line.old { line = begun line.old.line tip.now frame.now } }
{
    line.begin(tip, frame);
}

/// What a timeline of part 0 shows of the next attempt.
fn look_at<D: Design>(
    line: &mut Timeline<D>,
    tip: &Tip,
    frame: &Frame,
    until: Tick,
    found: &mut Attempt,
) -> Reply
    requires part { line.old.part ≡ 0 }
    requires room { length found.old.x ≡ (D.system 0).unknowns }
    ensures reply { reply_by result found.new ≡ found_by (attempt_of (D.system 0) frame.now tip.now) (look_reply line.old.line tip.now frame.now until) }
    ensures line { line.new ≡ record line.old { line = after_look line.old.line tip.now frame.now until } }
    ensures length { length found.new.x ≡ (D.system 0).unknowns }
{
    match line.look(tip, frame, until, found) {
        Looked::Here => Reply::Here,
        Looked::Nothing => Reply::Nothing,
    }
}

/// The attempts begin anew.
fn begin<D: Design, S: Stepper<D>, K: Kernel<D>>(engine: &Engine<D, S, K>, line: &mut Timeline<D>)
    requires part { line.old.part ≡ 0 }
    requires ready { engine.now.walk.awaited ≡ w.Ready }
    ensures { line.new ≡ record line.old { line = begun line.old.line engine.now.walk.tip engine.now.walk.frame } }
{
    let frame = engine.frame();
    let tip = engine.tip();
    begin_at(line, tip, frame);
}

/// The call of the timeline that a move asks for, and its reply.
fn call<D: Design, S: Stepper<D>, K: Kernel<D>>(
    engine: &Engine<D, S, K>,
    line: &mut Timeline<D>,
    said: &Moved,
    found: &mut Attempt,
) -> Reply
    requires part { line.old.part ≡ 0 }
    requires awaits { Awaits engine.now.walk said.now }
    requires room { length found.old.x ≡ (D.system 0).unknowns }
    ensures reply { reply_by result found.new ≡ reply_said (D.system 0) said.now engine.now.walk line.old.line }
    ensures line { line.new ≡ record line.old { line = line_said said.now engine.now.walk line.old.line } }
    ensures length { length found.new.x ≡ (D.system 0).unknowns }
{
    match said {
        Moved::Ended(_) => Reply::None,
        Moved::Ask(Ask::None) => Reply::None,
        Moved::Ask(Ask::Begin) => {
            begin(engine, line);
            Reply::None
        }
        Moved::Ask(Ask::Look { until }) => {
            let tip = engine.tip();
            let frame = engine.frame();
            look_at(line, tip, frame, *until, found)
        }
        Moved::Ask(Ask::Consume) => {
            let tip = engine.tip();
            let frame = engine.frame();
            Reply::Consumed(line.consume(tip, frame))
        }
    }
}

impl<D: Design, S: Stepper<D> + Drop, K: Kernel<D> + Drop> Leader<D, S, K> {
    /// Nothing is asked yet.
    pub fn new(
        engine: Engine<D, S, K>,
        unknowns: usize,
        alloc: Global,
    ) -> Result<Leader<D, S, K>, AllocError>
        requires ready { engine.walk.awaited ≡ w.Ready }
        requires unknowns { unknowns ≡ (D.system 0).unknowns }
        ensures { IfOk result (λ leader. leader ≡ record { walk = engine.walk; reply = NoReply }) }
    {
        let found = Attempt::blank(alloc, unknowns)?;
        Ok(Leader {
            engine,
            found,
            reply: Reply::None,
        })
    }
}

impl<D: Design, S: Stepper<D>, K: Kernel<D>> Leader<D, S, K> {
    /// One move, and the call of the timeline that it asks for.
    #[tactic(auto, using(crate::specs::Giving::gave_moved))]
    pub fn drive(
        &mut self,
        line: &mut Timeline<D>,
        out: &mut EventList,
    ) -> Result<Moved, AllocError>
        requires part { line.old.part ≡ 0 }
        ensures led { OnOk result (self.new ≡ led_on (D.system 0) self.old line.old.line) }
        ensures says { IfOk result (λ said. said ≡ (moved self.old.walk self.old.reply).says) }
        ensures line { OnOk result (line.new ≡ record line.old { line = line_led self.old line.old.line }) }
        ensures kept { OnErr result (line.new ≡ line.old) }

        // Whatever was found, the events go on as they would have, and the end is the same one.
        ensures gave { OnOk result (Gave out.old out.new (events_of self.old.walk.works) (events_of self.new.walk.works)) }
        ensures end { OnOk result (self.new.walk.end ≡ self.old.walk.end) }
        ensures ended { IfOk result (EndsAll self.new.walk) }
        ensures awaits { IfOk result (Awaits self.new.walk) }
        ensures spends { OnOk result (Spends self.old.walk self.new.walk self.old.reply) }
        ensures owns { OnOk result (OwnsOne self.old.walk self.new.walk self.old.reply) }
        ensures begins { OnOk result (Begins self.old.walk self.old.reply (moved self.old.walk self.old.reply)) }
        ensures falls { IfOk result (Falls self.old.walk self.new.walk) }

        // Want of memory: a front of the events was added, and every later call answers the same and adds nothing.
        ensures front { OnErr result (AddsFront out.old out.new (events_of self.old.walk.works)) }
        ensures broken { OnErr result (self.new.walk.awaited ≡ w.Broken) }
        ensures dead { self.old.walk.awaited ≡ w.Broken → IsErr result × (out.new ≡ out.old) }
    {
        let answer = self.reply.answer(&self.found);
        let said = self.engine.move_once(&answer, out)?;
        self.reply = call(&self.engine, line, &said, &mut self.found);
        Ok(said)
    }

    pub fn own(&self) -> u64
        ensures { result ≡ self.now.walk.own }
    {
        self.engine.own()
    }
}
