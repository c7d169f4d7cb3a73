//! The engine: a run that is made move by move.

ghost use Rattle.std.specs.Prelude.{◌≡◌, ◌<◌, ◌^◌, ◌++◌, IsErr, OnOk, OnErr, IfOk};
ghost use Rattle.step_data.specs.Options.{IsAllowed};
ghost use Rattle.step_model.specs.declared.kernel_stage.KernelStage.TheVariants.{Unstarted};
ghost use Rattle.step_model.specs.Kernel.{AddsFront};
ghost use Rattle.step_model.specs.System.{attempt as attempt_of};
ghost use Rattle.lockstep_model.specs.Walk as w;
ghost use Rattle.lockstep_model.specs.Walk.{first_walk, Fits, reply_of, moved, Begins, EndsAll, Awaits, Spends, OwnsOne, Falls};
ghost use Rattle.lockstep_model.specs.Works.{events_of};
ghost use Rattle.run_place.specs.Budgets.{delta_budget, run_budget};
ghost use Rattle.mixed_cycle.specs.Asking.{AsksFrom};
ghost use Rattle.mixed_cycle.specs.Making.{counted};
ghost use Rattle.mixed_cycle.specs.Moving.{FitsIn};
ghost use Rattle.mixed_cycle.specs.Running.{EndsAgain};

use crate::machine::{Awaited, Machine};
use lockstep_model::{Answer, Moved};
use std::alloc::{AllocError, Global};
use std::marker::Model;
use step_data::{EventList, Frame, Options, Tip};
use step_model::{Design, Kernel, Stepper};

/// A run that is made move by move. Callers see the walk of the run that is left, and how many trials and attempts the
/// solver has made.
#[derive(Drop)]
pub struct Engine<D: Design, S: Stepper<D>, K: Kernel<D>> {
    machine: Machine<D, S, K>,
}

impl<D: Design, S: Stepper<D>, K: Kernel<D>> Model for Engine<D, S, K> {
    ghost use Rattle.mixed_cycle.specs.Running.{Running};

    ghost Value = { Running };

    ghost use Rattle.mixed_cycle.specs.Running.{running, Kept};

    ghost view = { λ e. running (D.system 0) S.count K.state e.machine };

    ghost invariant = { λ e. Kept (D.system 0) S.part K.state e.machine };
}

impl<D: Design, S: Stepper<D> + Drop, K: Kernel<D> + Drop> Engine<D, S, K> {
    /// Before the start, with these options, which are the design's. The solver has all equations, and the kernel isn't
    /// started yet.
    pub fn new(
        stepper: S,
        kernel: K,
        options: Options,
        alloc: Global,
    ) -> Result<Engine<D, S, K>, AllocError>
        requires part { S.part stepper ≡ 0 }
        requires stage { (K.state kernel).stage ≡ Unstarted }
        requires options { options ≡ (D.system 0).options }
        requires allowed { IsAllowed options }
        requires deltas { (D.system 0).deltas ≡ delta_budget }
        requires choices { (D.system 0).choices < 2 ^ 32 }
        requires cycles { (D.system 0).cycles ≡ run_budget }
        requires tries { (D.system 0).tries ≡ run_budget }
        ensures walk { IfOk result (λ engine. engine.walk ≡ first_walk (D.system 0)) }
        ensures count { IfOk result (λ engine. engine.count ≡ S.count stepper) }
    {
        let machine = Machine::first(stepper, kernel, options, alloc)?;
        Ok(Engine { machine })
    }
}

impl<D: Design, S: Stepper<D>, K: Kernel<D>> Engine<D, S, K> {
    /// The next move, by the reply to the last ask. A found attempt is the one of the tip and the frame that the ask named.
    pub fn move_once(&mut self, answer: &Answer, out: &mut EventList) -> Result<Moved, AllocError>
        requires fits { Fits (attempt_of (D.system 0)) self.old.walk self.old.walk.awaited (reply_of answer.now) }
        requires room { FitsIn (D.system 0).unknowns (reply_of answer.now) }
        ensures walk { OnOk result (self.new.walk ≡ (moved self.old.walk (reply_of answer.now)).walk) }
        ensures says { IfOk result (λ said. said ≡ (moved self.old.walk (reply_of answer.now)).says) }
        ensures events { OnOk result (out.new ≡ out.old ++ (moved self.old.walk (reply_of answer.now)).events) }
        ensures count { OnOk result (self.new.count ≡ counted (moved self.old.walk (reply_of answer.now)).computed self.old.count) }

        // Whatever was answered, the events go on as they would have, and the end is the same one.
        ensures rest { OnOk result (out.new ++ events_of self.new.walk.works ≡ out.old ++ events_of self.old.walk.works) }
        ensures end { OnOk result (self.new.walk.end ≡ self.old.walk.end) }
        ensures ended { IfOk result (EndsAll self.new.walk) }
        ensures awaits { IfOk result (Awaits self.new.walk) }
        ensures again { IfOk result (EndsAgain self.new.walk) }

        // Each attempt is found once or made once, and the moves come to an end.
        ensures spends { OnOk result (Spends self.old.walk self.new.walk (reply_of answer.now)) }
        ensures owns { OnOk result (OwnsOne self.old.walk self.new.walk (reply_of answer.now)) }
        ensures begins { OnOk result (Begins self.old.walk (reply_of answer.now) (moved self.old.walk (reply_of answer.now))) }
        ensures falls { IfOk result (Falls self.old.walk self.new.walk) }

        // Want of memory: a front of the events was added, and every later call answers the same and adds nothing.
        ensures front { OnErr result (AddsFront out.old out.new (events_of self.old.walk.works)) }
        ensures broken { OnErr result (self.new.walk.awaited ≡ w.Broken) }
        ensures dead { self.old.walk.awaited ≡ w.Broken → IsErr result × (out.new ≡ out.old) }
    {
        match self.machine.move_by(answer, out) {
            Ok(said) => Ok(said),
            Err(fault) => {
                self.machine.awaited = Awaited::Broken;
                Err(fault)
            }
        }
    }

    /// The tip that an ask names.
    pub fn tip(&self) -> &Tip
        ensures { result.now ≡ self.now.walk.tip }
    {
        match self.machine.awaited {
            Awaited::Settling { .. } => &self.machine.asked,
            _ => &self.machine.place.tip,
        }
    }

    /// The frame that an ask names. Where no attempt waits to be consumed, attempts may be made from the tip under it.
    pub fn frame(&self) -> &Frame
        ensures value { result.now ≡ self.now.walk.frame }
        ensures from { AsksFrom self.now.walk.awaited (D.system 0) self.now.walk.frame self.now.walk.tip }
    {
        &self.machine.frame
    }

    /// How many attempts it has made itself.
    pub fn own(&self) -> u64
        ensures { result ≡ self.now.walk.own }
    {
        self.machine.own
    }

    /// How many cycles there were.
    pub fn cycles(&self) -> u32
        ensures { result ≡ self.now.walk.cycles }
    {
        self.machine.cycles
    }
}
