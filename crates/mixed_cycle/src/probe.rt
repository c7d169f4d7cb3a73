//! A probe of a crossing.

ghost use Rattle.std.specs.Prelude.{◌≡◌};
ghost use Rattle.cycle_machine.specs.Held.{next_of};
ghost use Rattle.cycle_machine.specs.Ready.{IsReady};
ghost use Rattle.run_place.specs.declared.place.Stage.TheVariants as stages;
ghost use Rattle.run_place.specs.Places.{held_of};
ghost use Rattle.mixed_cycle.specs.declared.machine.Awaited.TheVariants.{Ready};
ghost use Rattle.mixed_cycle.specs.Standing.{digital_at};
ghost use Rattle.mixed_cycle.specs.Machine.{Sound, moment_of};
ghost use Rattle.mixed_cycle.specs.Making.{Performs, worked};

use crate::choose::choose;
use crate::machine::Machine;
use crate::trial::trial;
use lockstep_model::{Ask, Moved};
use std::alloc::AllocError;
use step_data::{ChooseKind, EventList};
use step_model::{Design, Kernel, Stepper};

impl<D: Design, S: Stepper<D>, K: Kernel<D>> Machine<D, S, K> {
    /// Makes a probe between the bounds of a crossing; its point is given where they are near enough then.
    pub(crate) fn probe(&mut self, out: &mut EventList) -> Result<Moved, AllocError>
        requires sound { Sound (D.system 0) S.part K.state self.old }
        requires awaited { self.old.awaited ≡ Ready }
        requires stage { self.old.place.stage ≡ stages.InSearch }
        requires ready { IsReady (next_of (D.system 0) (held_of (digital_at (D.system 0) (K.state self.old.kernel)) self.old.place)) }
        ensures { Performs (D.system 0) S.part S.count K.state (S.count self.old.stepper) self.new out.old out.new result (worked (D.system 0) (moment_of (D.system 0) K.state self.old)) }
    {
        let is_chosen = choose::<D, S>(
            &mut self.stepper,
            &self.frame,
            self.place.tip.t,
            ChooseKind::Timed,
            &self.place.tip.x,
            &mut self.branches,
        );
        let step = self.place.probe_step();
        let answer = trial::<D, S>(
            &mut self.stepper,
            &self.frame,
            &self.place.tip,
            step,
            &mut self.x,
        );
        self.place
            .narrow(answer, self.kernel.thresholds(), &mut self.x);
        self.place.count_try();
        self.place
            .give_near(self.alloc, out, is_chosen, &self.branches)?;
        Ok(Moved::Ask(Ask::None))
    }
}
