//! A move, by the reply to the last ask.

ghost use Rattle.std.specs.Prelude.{◌≡◌, ◌≢◌, IsErr, OnOk};
ghost use Rattle.step_model.specs.System.{attempt as attempt_of};
ghost use Rattle.lockstep_model.specs.Walk.{Fits, reply_of, was_consumed};
ghost use Rattle.cycle_machine.specs.Moves.{IsAhead, moving, walk_of};
ghost use Rattle.mixed_cycle.specs.declared.machine.Awaited.TheVariants.{Looking, Broken};
ghost use Rattle.mixed_cycle.specs.Machine.{Sound, moment_of};
ghost use Rattle.mixed_cycle.specs.Making.{Performs};
ghost use Rattle.mixed_cycle.specs.Moving.{FitsIn};

use crate::machine::{Awaited, Machine};
use lockstep_model::{Answer, Moved};
use std::alloc::AllocError;
use step_data::EventList;
use step_model::{Design, Kernel, Stepper};

/// The attempt that was used was there.
fn was_there(answer: &Answer) -> bool
    ensures { result ≡ was_consumed (reply_of answer.now) }
{
    matches!(*answer, Answer::Consumed(true))
}

impl<D: Design, S: Stepper<D>, K: Kernel<D>> Machine<D, S, K> {
    /// The reply of a look.
    fn look(&mut self, answer: &Answer, out: &mut EventList) -> Result<Moved, AllocError>
        requires sound { Sound (D.system 0) S.part K.state self.old }
        requires awaited { self.old.awaited ≡ Looking }
        requires ahead { IsAhead (D.system 0) (moment_of (D.system 0) K.state self.old) }
        requires fits { Fits (attempt_of (D.system 0)) (walk_of (D.system 0) (moment_of (D.system 0) K.state self.old)) (moment_of (D.system 0) K.state self.old).awaited (reply_of answer.now) }
        requires room { FitsIn (D.system 0).unknowns (reply_of answer.now) }
        ensures { Performs (D.system 0) S.part S.count K.state (S.count self.old.stepper) self.new out.old out.new result (moving (D.system 0) (moment_of (D.system 0) K.state self.old) (reply_of answer.now)) }
    {
        match *answer {
            Answer::Here(made) => self.use_found(made, out),
            Answer::None => self.make_own(out),
            Answer::Nothing => self.make_own(out),
            Answer::Consumed(_) => self.make_own(out),
        }
    }

    /// The next move.
    pub(crate) fn move_by(
        &mut self,
        answer: &Answer,
        out: &mut EventList,
    ) -> Result<Moved, AllocError>
        requires sound { self.old.awaited ≢ Broken → Sound (D.system 0) S.part K.state self.old }
        requires ahead { IsAhead (D.system 0) (moment_of (D.system 0) K.state self.old) }
        requires fits { Fits (attempt_of (D.system 0)) (walk_of (D.system 0) (moment_of (D.system 0) K.state self.old)) (moment_of (D.system 0) K.state self.old).awaited (reply_of answer.now) }
        requires room { FitsIn (D.system 0).unknowns (reply_of answer.now) }
        ensures performs { Performs (D.system 0) S.part S.count K.state (S.count self.old.stepper) self.new out.old out.new result (moving (D.system 0) (moment_of (D.system 0) K.state self.old) (reply_of answer.now)) }
        ensures alive { OnOk result (self.old.awaited ≢ Broken) }
        ensures dead { self.old.awaited ≡ Broken → IsErr result × (self.new ≡ self.old) × (out.new ≡ out.old) }
    {
        match self.awaited {
            Awaited::Ready => self.proceed(out),
            Awaited::Looking => self.look(answer, out),
            Awaited::Settling { own } => self.settle(own, was_there(answer), out),
            Awaited::Broken => Err(AllocError),
        }
    }
}
