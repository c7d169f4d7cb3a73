//! A cycle of the digital side.

ghost use Rattle.std.specs.Prelude.{◌≡◌, ◌||◌, All, IsTrue, OnOk, OnErr};
ghost use Rattle.step_model.specs.declared.kernel_stage.KernelStage.TheVariants.{Going};
ghost use Rattle.run_place.specs.declared.place.Stage.TheVariants as stages;
ghost use Rattle.mixed_cycle.specs.declared.machine.Awaited.TheVariants.{Ready};
ghost use Rattle.mixed_cycle.specs.Machine.{Sound, moment_of};
ghost use Rattle.mixed_cycle.specs.Making.{Performs, worked};
ghost use Rattle.mixed_cycle.specs.Cycling.{gathered_by, renews_by};

use crate::machine::Machine;
use crate::solve::ask_where;
use lockstep_model::{Ask, Moved};
use run_place::gather;
use std::alloc::AllocError;
use std::mem::swap;
use step_data::{BreakList, EventList, Frame, Ran};
use step_model::{Design, Kernel, Stepper};

/// In QUIESCENT_DOMAIN the elements that were executed are gathered.
fn gather_unless(timed: bool, gathered: &mut BreakList, more: &BreakList) -> Result<(), AllocError>
    ensures { OnOk result (gathered.new ≡ gathered_by timed gathered.old more.now) }
{
    if timed {
        return Ok(());
    }
    gather(gathered, more)
}

/// DOMAIN is TIME_DOMAIN behind a cycle.
fn is_timed_after(timed: bool, to_time: bool) -> bool
    ensures { result ≡ (timed || to_time) }
{
    timed || to_time
}

/// The attempts begin anew behind a cycle.
fn renews(timed: bool, to_time: bool, broke: bool, frame: &Frame, new: &Frame) -> bool
    ensures { result ≡ renews_by timed to_time broke frame.now new.now }
{
    (timed || to_time) && !broke && (to_time || !frame.is_same(new))
}

impl<D: Design, S: Stepper<D>, K: Kernel<D>> Machine<D, S, K> {
    /// Makes the cycle of a delta.
    pub(crate) fn cycle(&mut self, to_time: bool, out: &mut EventList) -> Result<Moved, AllocError>
        requires sound { Sound (D.system 0) S.part K.state self.old }
        requires awaited { self.old.awaited ≡ Ready }
        requires stage { self.old.place.stage ≡ stages.InCycle to_time }
        ensures { Performs (D.system 0) S.part S.count K.state (S.count self.old.stepper) self.new out.old out.new result (worked (D.system 0) (moment_of (D.system 0) K.state self.old)) }
    {
        let timed = self.place.timed;
        let is_timed = is_timed_after(timed, to_time);
        let ran = self.kernel.cycle(
            self.place.time,
            self.place.delta,
            &self.place.point,
            to_time,
            out,
        )?;
        self.cycles += 1;
        match ran {
            Ran::Refused(refusal) => {
                self.place.end_refused(refusal);
                Ok(Moved::Ask(Ask::None))
            }
            Ran::Done { broke } => {
                gather_unless(is_timed, &mut self.place.gathered, self.kernel.breaks())?;
                self.kernel.frame(&mut self.new_frame);
                let is_renewed = renews(timed, to_time, broke, &self.frame, &self.new_frame);
                self.place
                    .cycle(to_time, self.options.h0, broke, is_renewed);
                swap(&mut self.frame, &mut self.new_frame);
                Ok(Moved::Ask(ask_where(is_renewed)))
            }
        }
    }
}
