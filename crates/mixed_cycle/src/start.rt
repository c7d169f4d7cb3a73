//! The start of a run.

ghost use Rattle.std.specs.Prelude.{◌≡◌};
ghost use Rattle.run_place.specs.declared.place.Stage.TheVariants as stages;
ghost use Rattle.mixed_cycle.specs.declared.machine.Awaited.TheVariants.{Ready};
ghost use Rattle.mixed_cycle.specs.Machine.{Sound, moment_of};
ghost use Rattle.mixed_cycle.specs.Making.{Performs, worked};

use crate::machine::Machine;
use lockstep_model::{Ask, Moved};
use run_place::gather;
use std::alloc::AllocError;
use step_data::{EventList, Ran};
use step_model::{Design, Kernel, Stepper};

impl<D: Design, S: Stepper<D>, K: Kernel<D>> Machine<D, S, K> {
    /// Each process runs once up to its wait.
    pub(crate) fn start(&mut self, out: &mut EventList) -> Result<Moved, AllocError>
        requires sound { Sound (D.system 0) S.part K.state self.old }
        requires awaited { self.old.awaited ≡ Ready }
        requires stage { self.old.place.stage ≡ stages.Unstarted }
        ensures { Performs (D.system 0) S.part S.count K.state (S.count self.old.stepper) self.new out.old out.new result (worked (D.system 0) (moment_of (D.system 0) K.state self.old)) }
    {
        let ran = self.kernel.start(&self.place.point, out)?;
        match ran {
            Ran::Refused(refusal) => {
                self.place.end_refused(refusal);
                Ok(Moved::Ask(Ask::None))
            }
            Ran::Done { broke } => {
                gather(&mut self.place.gathered, self.kernel.breaks())?;
                self.kernel.frame(&mut self.frame);
                self.place.start(broke);
                Ok(Moved::Ask(Ask::None))
            }
        }
    }
}
