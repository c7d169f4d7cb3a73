//! The reply of a consume.

ghost use Rattle.std.specs.Prelude.{◌≡◌};
ghost use Rattle.cycle_machine.specs.Moves.{settle as settling};
ghost use Rattle.mixed_cycle.specs.declared.machine.Awaited.TheVariants.{Settling};
ghost use Rattle.mixed_cycle.specs.Machine.{Sound, moment_of};
ghost use Rattle.mixed_cycle.specs.Making.{Performs};
ghost use Rattle.mixed_cycle.specs.Settling.{begins_by};

use crate::machine::{Awaited, Machine};
use lockstep_model::{Ask, Moved};
use run_place::Stage;
use std::alloc::AllocError;
use step_data::EventList;
use step_model::{Design, Kernel, Stepper};

/// The attempts begin anew where an own one wasn't consumed, unless the run ends.
fn begins(own: bool, consumed: bool, stage: Stage) -> bool
    ensures { result ≡ begins_by own consumed stage }
{
    own && !consumed && !matches!(stage, Stage::Finished(_))
}

impl<D: Design, S: Stepper<D>, K: Kernel<D>> Machine<D, S, K> {
    /// An attempt was used, and there is the reply of its consume.
    pub(crate) fn settle(
        &mut self,
        own: bool,
        consumed: bool,
        out: &mut EventList,
    ) -> Result<Moved, AllocError>
        requires sound { Sound (D.system 0) S.part K.state self.old }
        requires awaited { self.old.awaited ≡ Settling own }
        ensures { Performs (D.system 0) S.part S.count K.state (S.count self.old.stepper) self.new out.old out.new result (settling own self.old.place.tip consumed (D.system 0) (moment_of (D.system 0) K.state self.old)) }
    {
        self.make_ready();
        self.awaited = Awaited::Ready;
        if begins(own, consumed, self.place.stage) {
            Ok(Moved::Ask(Ask::Begin))
        } else {
            self.work(out)
        }
    }
}
