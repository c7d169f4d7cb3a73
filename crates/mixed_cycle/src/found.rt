//! An attempt that was found.

ghost use Rattle.std.specs.Prelude.{◌≡◌, ◌||◌, length};
ghost use Rattle.step_data.specs.Steps.{is_failed};
ghost use Rattle.step_model.specs.System.{attempt as attempt_of};
ghost use Rattle.cycle_machine.specs.Held.{next_of};
ghost use Rattle.cycle_machine.specs.Moves.{IsTried, found_by};
ghost use Rattle.run_place.specs.Places.{held_of};
ghost use Rattle.mixed_cycle.specs.declared.machine.Awaited.TheVariants.{Looking};
ghost use Rattle.mixed_cycle.specs.Standing.{digital_at};
ghost use Rattle.mixed_cycle.specs.Machine.{Sound, moment_of};
ghost use Rattle.mixed_cycle.specs.Making.{Performs};

use crate::attempted::{crosses, gives_point, take};
use crate::choose::choose;
use crate::machine::{Awaited, Machine};
use lockstep_model::{Ask, Moved};
use std::alloc::AllocError;
use step_data::{Attempt, ChooseKind, EventList, Kind};
use step_model::{Design, Kernel, Stepper};

/// A crossing, or an attempt that failed, isn't consumed.
fn stays(is_crossing: bool, made: &Attempt) -> bool
    ensures { result ≡ (is_crossing || is_failed made.now.kind) }
{
    is_crossing || matches!(made.kind, Kind::Failed)
}

impl<D: Design, S: Stepper<D>, K: Kernel<D>> Machine<D, S, K> {
    /// The attempt was there and is used; behind one that isn't consumed the next work follows at once.
    pub(crate) fn use_found(
        &mut self,
        made: &Attempt,
        out: &mut EventList,
    ) -> Result<Moved, AllocError>
        requires sound { Sound (D.system 0) S.part K.state self.old }
        requires awaited { self.old.awaited ≡ Looking }
        requires ahead { IsTried (next_of (D.system 0) (held_of (digital_at (D.system 0) (K.state self.old.kernel)) self.old.place)) }
        requires made { made.now ≡ attempt_of (D.system 0) self.old.frame self.old.place.tip }
        requires room { length made.now.x ≡ (D.system 0).unknowns }
        ensures { Performs (D.system 0) S.part S.count K.state (S.count self.old.stepper) self.new out.old out.new result (found_by (next_of (D.system 0) (held_of (digital_at (D.system 0) (K.state self.old.kernel)) self.old.place)) (D.system 0) (moment_of (D.system 0) K.state self.old)) }
    {
        let is_chosen = choose::<D, S>(
            &mut self.stepper,
            &self.frame,
            self.place.tip.t,
            ChooseKind::Timed,
            &self.place.tip.x,
            &mut self.branches,
        );
        let gives = gives_point(self.place.time, made);
        let is_crossing = crosses(gives, made, self.kernel.thresholds());
        self.place.count_try();
        take(
            &mut self.place,
            &mut self.asked,
            made,
            is_crossing,
            gives,
            self.options.xres,
            self.alloc,
            out,
            is_chosen,
            &self.branches,
        )?;
        if stays(is_crossing, made) {
            self.awaited = Awaited::Ready;
            self.proceed(out)
        } else {
            self.awaited = Awaited::Settling { own: false };
            Ok(Moved::Ask(Ask::Consume))
        }
    }
}
