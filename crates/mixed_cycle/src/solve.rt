//! The solution before a delta.

ghost use Rattle.std.specs.Prelude.{◌≡◌, ◌≢◌, ℕ, List, All, IsTrue, length, Result};
ghost use Rattle.step_model.specs.declared.kernel_stage.KernelStage.TheVariants.{Going};
ghost use Rattle.step_model.specs.Answers.{settled_answer, settled_value};
ghost use Rattle.lockstep_model.specs.Lockstep.{branches_or, solution_kind};
ghost use Rattle.lockstep_model.specs.Walk.{ask_of};
ghost use Rattle.cycle_machine.specs.Held.{next_of};
ghost use Rattle.cycle_machine.specs.Ready.{IsReady};
ghost use Rattle.run_place.specs.declared.place.Stage.TheVariants as stages;
ghost use Rattle.run_place.specs.Giving.{chosen_of};
ghost use Rattle.run_place.specs.Places.{held_of};
ghost use Rattle.mixed_cycle.specs.declared.machine.Awaited.TheVariants.{Ready};
ghost use Rattle.mixed_cycle.specs.Standing.{digital_at};
ghost use Rattle.mixed_cycle.specs.Machine.{Sound, moment_of};
ghost use Rattle.mixed_cycle.specs.Making.{Performs, worked};
ghost use Rattle.mixed_cycle.specs.Solving.{solution_from};

use crate::choose::choose;
use crate::machine::Machine;
use fix_core::Tick;
use lockstep_model::{Ask, Moved};
use std::alloc::AllocError;
use step_data::{BreakList, ChooseKind, EventList, Frame, Point, SetKind, Settled};
use step_model::{Design, Kernel, Stepper};

/// What is asked after a work.
pub(crate) fn ask_where(renews: bool) -> Ask
    ensures { result ≡ ask_of renews }
{
    if renews { Ask::Begin } else { Ask::None }
}

/// For which value of DOMAIN branches are chosen.
fn kind_of(timed: bool) -> ChooseKind
    ensures { result ≡ solution_kind timed }
{
    if timed {
        ChooseKind::Timed
    } else {
        ChooseKind::Quiet
    }
}

/// The solution at a time: in QUIESCENT_DOMAIN all elements so far count, in TIME_DOMAIN those of the last cycle.
fn settle<D: Design, S: Stepper<D>, K: Kernel<D>>(
    stepper: &mut S,
    kernel: &K,
    frame: &Frame,
    t: Tick,
    timed: bool,
    gathered: &BreakList,
    x: &mut Point,
) -> Settled
    requires part { S.part stepper.old ≡ 0 }
    requires frame { IsTrue ((D.system 0).is_frame frame.now) }
    requires elements { All (λ e. IsTrue ((D.system 0).is_element e)) gathered.now }
    requires point { length x.old ≡ (D.system 0).unknowns }
    ensures answer { (K.state kernel.now).stage ≡ Going → result ≡ settled_answer (solution_from timed (D.system 0) (K.state kernel.now).digital frame.now t gathered.now x.old) }
    ensures value { (K.state kernel.now).stage ≡ Going → x.new ≡ settled_value x.old (solution_from timed (D.system 0) (K.state kernel.now).digital frame.now t gathered.now x.old) }
    ensures length { length x.new ≡ (D.system 0).unknowns }
    ensures count { S.count stepper.new ≡ S.count stepper.old }
    ensures part { S.part stepper.new ≡ 0 }
{
    if timed {
        stepper.settle(frame, t, SetKind::Discontinuity, kernel.breaks(), x)
    } else {
        stepper.settle(frame, t, SetKind::Quiescent, gathered, x)
    }
}

impl<D: Design, S: Stepper<D>, K: Kernel<D>> Machine<D, S, K> {
    /// Solves before a delta.
    pub(crate) fn solve(&mut self, to_time: bool, out: &mut EventList) -> Result<Moved, AllocError>
        requires sound { Sound (D.system 0) S.part K.state self.old }
        requires awaited { self.old.awaited ≡ Ready }
        requires stage { self.old.place.stage ≡ stages.InDelta to_time }
        requires ready { IsReady (next_of (D.system 0) (held_of (digital_at (D.system 0) (K.state self.old.kernel)) self.old.place)) }
        ensures { Performs (D.system 0) S.part S.count K.state (S.count self.old.stepper) self.new out.old out.new result (worked (D.system 0) (moment_of (D.system 0) K.state self.old)) }
    {
        let timed = self.place.timed;
        let is_chosen = choose::<D, S>(
            &mut self.stepper,
            &self.frame,
            self.place.time,
            kind_of(timed),
            &self.place.point,
            &mut self.branches,
        );
        let settled = settle::<D, S, K>(
            &mut self.stepper,
            &self.kernel,
            &self.frame,
            self.place.time,
            timed,
            &self.place.gathered,
            &mut self.place.point,
        );
        match settled {
            Settled::Good => {
                self.place
                    .give_here(self.alloc, out, is_chosen, &self.branches)?;
                self.place.solve(
                    to_time,
                    self.options.h0,
                    &self.frame,
                    is_chosen,
                    &self.branches,
                );
                Ok(Moved::Ask(ask_where(timed)))
            }
            Settled::Refused(cause) => {
                self.place.end_unsolvable(cause);
                Ok(Moved::Ask(Ask::None))
            }
        }
    }
}
