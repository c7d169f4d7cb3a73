//! An own attempt.

ghost use Rattle.std.specs.Prelude.{◌≡◌, ◌<◌, IsTrue, length};
ghost use Rattle.step_model.specs.Answers.{CanStep, IsStep};
ghost use Rattle.step_model.specs.Counts.{more};
ghost use Rattle.step_model.specs.System.{attempt as attempt_of};
ghost use Rattle.cycle_machine.specs.Held.{next_of};
ghost use Rattle.cycle_machine.specs.Moves.{IsTried, own_by};
ghost use Rattle.run_place.specs.Places.{held_of};
ghost use Rattle.mixed_cycle.specs.declared.machine.Awaited.TheVariants.{Looking};
ghost use Rattle.mixed_cycle.specs.Standing.{digital_at};
ghost use Rattle.mixed_cycle.specs.Machine.{Sound, moment_of};
ghost use Rattle.mixed_cycle.specs.Making.{Performs};
ghost use Rattle.mixed_cycle.specs.Used.{awaited_after, ask_after};

use crate::attempted::{crosses, gives_point, take};
use crate::choose::choose;
use crate::machine::{Awaited, Machine};
use lockstep_model::{Ask, Moved};
use std::alloc::AllocError;
use step_data::{Attempt, ChooseKind, EventList, Frame, Tip};
use step_model::{Design, Kernel, Stepper};

/// The attempt from the tip, by part 0.
fn attempt<D: Design, S: Stepper<D>>(stepper: &mut S, frame: &Frame, tip: &Tip, out: &mut Attempt)
    requires part { S.part stepper.old ≡ 0 }
    requires tip { CanStep (D.system 0) frame.now tip.now }
    requires step { IsStep tip.now.h }
    requires room { length out.old.x ≡ (D.system 0).unknowns }
    ensures value { out.new ≡ attempt_of (D.system 0) frame.now tip.now }
    ensures length { length out.new.x ≡ (D.system 0).unknowns }
    ensures count { S.count stepper.new ≡ more (S.count stepper.old) }
    ensures part { S.part stepper.new ≡ 0 }
{
    stepper.attempt(frame, tip, out);
}

/// What is awaited behind an attempt: nothing behind a crossing.
fn awaited_after(own: bool, is_crossing: bool) -> Awaited
    ensures { result ≡ awaited_after own is_crossing }
{
    if is_crossing {
        Awaited::Ready
    } else {
        Awaited::Settling { own }
    }
}

/// What is asked behind an attempt.
fn ask_after(is_crossing: bool) -> Ask
    ensures { result ≡ ask_after is_crossing }
{
    if is_crossing { Ask::None } else { Ask::Consume }
}

/// One more own attempt.
fn count_own(own: u64) -> u64
    ensures { result ≡ more own }
{
    own.saturating_add(1)
}

impl<D: Design, S: Stepper<D>, K: Kernel<D>> Machine<D, S, K> {
    /// The attempt wasn't there: an own one is made and used.
    pub(crate) fn make_own(&mut self, out: &mut EventList) -> Result<Moved, AllocError>
        requires sound { Sound (D.system 0) S.part K.state self.old }
        requires awaited { self.old.awaited ≡ Looking }
        requires ahead { IsTried (next_of (D.system 0) (held_of (digital_at (D.system 0) (K.state self.old.kernel)) self.old.place)) }
        ensures { Performs (D.system 0) S.part S.count K.state (S.count self.old.stepper) self.new out.old out.new result (own_by (next_of (D.system 0) (held_of (digital_at (D.system 0) (K.state self.old.kernel)) self.old.place)) (D.system 0) (moment_of (D.system 0) K.state self.old)) }
    {
        attempt::<D, S>(
            &mut self.stepper,
            &self.frame,
            &self.place.tip,
            &mut self.made,
        );
        self.own = count_own(self.own);
        let is_chosen = choose::<D, S>(
            &mut self.stepper,
            &self.frame,
            self.place.tip.t,
            ChooseKind::Timed,
            &self.place.tip.x,
            &mut self.branches,
        );
        let gives = gives_point(self.place.time, &self.made);
        let is_crossing = crosses(gives, &self.made, self.kernel.thresholds());
        self.place.count_try();
        take(
            &mut self.place,
            &mut self.asked,
            &self.made,
            is_crossing,
            gives,
            self.options.xres,
            self.alloc,
            out,
            is_chosen,
            &self.branches,
        )?;
        self.awaited = awaited_after(true, is_crossing);
        Ok(Moved::Ask(ask_after(is_crossing)))
    }
}
