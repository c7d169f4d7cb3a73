//! The core: steps of the engine and of the worker over one timeline, in any order.

ghost use Rattle.std.specs.Prelude.{◌≡◌, ◌≢◌, ◌≤◌, ◌<◌, ◌^◌, ◌+◌, ◌++◌, ℕ, [], OnOk, OnErr, IfOk, None};
ghost use Rattle.step_model.specs.Kernel.{AddsFront};
ghost use Rattle.run_place.specs.Giving.{Gave};
ghost use Rattle.lockstep_model.specs.Lockstep.{lockstep};
ghost use Rattle.lockstep_model.specs.Walk as w;
ghost use Rattle.lockstep_model.specs.Walk.{NoReply, here, EndsAll, Falls, moves_left};
ghost use Rattle.lockstep_model.specs.Works.{events_of, attempts_in};
ghost use Rattle.core_steps.specs.States.{State, first_state, stepped, stepped_all, said, end_said, by_engine, engine_steps};
ghost use Rattle.core_steps.specs.Ending.{Nears};
ghost use Rattle.core_steps.specs.Kept.{NoneHere};
ghost use Rattle.core_steps.specs.Laws.{Balanced};
ghost use Rattle.step_schedule.specs.declared.Step.TheVariants as whose;

use core_hands::{Hand, Leader};
use lockstep_model::{Ask, Moved};
use mixed_cycle::engine::Engine;
use std::alloc::{AllocError, Global};
use std::marker::Model;
use step_data::{End, EventList};
use step_model::{Design, Kernel, Stepper};
use step_schedule::Step;
use timeline::{Counts, Timeline};

/// An engine and a worker over one timeline.
#[derive(Drop)]
pub struct CoreOfTwo<D: Design, S: Stepper<D>, K: Kernel<D>> {
    leader: Leader<D, S, K>,
    hand: Hand<D, S>,
    line: Timeline<D>,
    ended: Option<End>,
}

impl<D: Design, S: Stepper<D>, K: Kernel<D>> Model for CoreOfTwo<D, S, K> {
    ghost use Rattle.core_steps.specs.States.{State};

    ghost Value = { State };

    ghost use Rattle.core_steps.specs.Kept.{CoreKept};

    ghost view = { λ a. record { led = a.leader; line = a.line.line; hand = a.hand; ended = a.ended } };

    ghost invariant = { λ a. CoreKept a.line.part a.ended a.leader };
}

/// The end that a move tells.
fn end_of(said: &Moved) -> Option<End>
    ensures { result ≡ end_said said.now }
{
    match said {
        Moved::Ended(end) => Some(*end),
        Moved::Ask(_) => None,
    }
}

impl<D: Design, S: Stepper<D> + Drop, K: Kernel<D> + Drop> CoreOfTwo<D, S, K> {
    /// Nothing is in the hand and nothing is asked. Engine, worker and timeline are of one design; where engine and timeline are
    /// new ones this is the first state.
    pub fn new(
        engine: Engine<D, S, K>,
        worker: S,
        line: Timeline<D>,
        alloc: Global,
    ) -> Result<CoreOfTwo<D, S, K>, AllocError>
        requires ready { engine.walk.awaited ≡ w.Ready }
        requires worker { S.part worker ≡ 0 }
        requires part { line.part ≡ 0 }
        ensures { IfOk result (λ core. core ≡ record { led = record { walk = engine.walk; reply = NoReply }; line = line.line; hand = None; ended = None }) }
    {
        let leader = Leader::new(engine, worker.unknowns(), alloc)?;
        let hand = Hand::new(worker, alloc)?;
        Ok(CoreOfTwo {
            leader,
            hand,
            line,
            ended: None,
        })
    }
}

impl<D: Design, S: Stepper<D>, K: Kernel<D>> CoreOfTwo<D, S, K> {
    /// One step. A worker's step says that nothing is asked; where the end was told, each step tells it again and changes
    /// nothing.
    #[tactic(auto, using(crate::specs::Giving::gave_none, crate::specs::Laws::led_balances, crate::specs::Laws::worked_balances, crate::specs::Ending::nears_none, crate::specs::Ending::nears_moved))]
    pub fn step(&mut self, step: Step, out: &mut EventList) -> Result<Moved, AllocError>
        ensures state { OnOk result (self.new ≡ stepped (D.system 0) step self.old) }
        ensures says { IfOk result (λ m. m ≡ said step self.old) }

        // Whatever the worker did, the events go on as they would have, and the end is the same one.
        ensures gave { OnOk result (Gave out.old out.new (events_of self.old.led.walk.works) (events_of self.new.led.walk.works)) }
        ensures end { OnOk result (self.new.led.walk.end ≡ self.old.led.walk.end) }
        ensures ended { IfOk result (EndsAll self.new.led.walk) }
        ensures none_here { IfOk result (NoneHere self.new.led) }
        ensures front { OnErr result (AddsFront out.old out.new (events_of self.old.led.walk.works)) }

        // Each attempt is found once or made once, and the engine's steps come to an end.
        ensures balanced { OnOk result ((total : ℕ) → Balanced total self.old.led self.old.line → Balanced total self.new.led self.new.line) }
        ensures falls { step ≡ whose.D → IfOk result (Falls self.old.led.walk self.new.led.walk) }
        ensures nears { OnOk result (Nears (by_engine step) self.old self.new) }
    {
        if let Some(end) = self.ended {
            return Ok(Moved::Ended(end));
        }
        match step {
            Step::D => {
                let said = self.leader.drive(&mut self.line, out)?;
                self.ended = end_of(&said);
                Ok(said)
            }
            Step::W => {
                self.hand.work(&mut self.line);
                Ok(Moved::Ask(Ask::None))
            }
        }
    }

    /// The steps of a schedule, in order. The end was told behind as many steps of the engine as there were moves left, whatever
    /// the worker did between them.
    pub fn steps(&mut self, schedule: &[Step], out: &mut EventList) -> Result<(), AllocError>
        ensures state { OnOk result (self.new ≡ stepped_all (D.system 0) schedule.now self.old) }

        // Whatever the schedule is, the events are a front of the whole run's.
        ensures gave { OnOk result (Gave out.old out.new (events_of self.old.led.walk.works) (events_of self.new.led.walk.works)) }
        ensures end { OnOk result (self.new.led.walk.end ≡ self.old.led.walk.end) }
        ensures front { OnErr result (AddsFront out.old out.new (events_of self.old.led.walk.works)) }
        ensures balanced { OnOk result ((total : ℕ) → Balanced total self.old.led self.old.line → Balanced total self.new.led self.new.line) }
        ensures ended { 0 < moves_left self.old.led.walk → moves_left self.old.led.walk ≤ engine_steps schedule.now → OnOk result (self.new.ended ≢ None) }
    {
        for step in schedule {
            self.step(*step, out)?;
        }
        Ok(())
    }

    /// The engine's steps to the end.
    pub fn finish(&mut self, out: &mut EventList) -> Result<End, AllocError>
        ensures events { OnOk result (out.new ≡ out.old ++ events_of self.old.led.walk.works) }
        ensures end { IfOk result (λ end. end ≡ self.old.led.walk.end) }
        ensures none_left { OnOk result (self.new.led.walk.works ≡ []) }
        ensures none_here { OnOk result (here self.new.led.reply ≡ 0) }
        ensures front { OnErr result (AddsFront out.old out.new (events_of self.old.led.walk.works)) }
        ensures balanced { OnOk result ((total : ℕ) → Balanced total self.old.led self.old.line → Balanced total self.new.led self.new.line) }
    {
        loop {
            let said = self.step(Step::D, out)?;
            if let Moved::Ended(end) = said {
                return Ok(end);
            }
        }
    }

    /// The whole run, with the steps of a schedule first.
    pub fn replay(&mut self, schedule: &[Step], out: &mut EventList) -> Result<End, AllocError>
        requires fresh { self.old ≡ first_state (D.system 0) }
        requires room { attempts_in (lockstep (D.system 0)).works < 2 ^ 62 }

        // The events and the end are those of lockstep, whatever the schedule is.
        ensures events { OnOk result (out.new ≡ out.old ++ events_of (lockstep (D.system 0)).works) }
        ensures end { IfOk result (λ end. end ≡ (lockstep (D.system 0)).end) }
        ensures front { OnErr result (AddsFront out.old out.new (events_of (lockstep (D.system 0)).works)) }

        // Each attempt of lockstep is found or is an own one.
        ensures attempts { OnOk result (self.new.led.walk.own + self.new.line.journal.counts.reused ≡ attempts_in (lockstep (D.system 0)).works) }
    {
        self.steps(schedule, out)?;
        self.finish(out)
    }

    /// How many attempts the engine made itself.
    pub fn own(&self) -> u64
        ensures { result ≡ self.now.led.walk.own }
    {
        self.leader.own()
    }

    /// How often the timeline gave each reply.
    pub fn counts(&self) -> Counts
        ensures { result ≡ self.now.line.journal.counts }
    {
        self.line.journal().counts()
    }
}
