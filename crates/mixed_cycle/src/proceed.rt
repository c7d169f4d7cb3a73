//! What comes next where no reply is awaited.

ghost use Rattle.std.specs.Prelude.{◌≡◌, ◌≤◌, nat_le};
ghost use Rattle.step_data.specs.Steps.{end_of};
ghost use Rattle.cycle_machine.specs.Held.{next_of};
ghost use Rattle.cycle_machine.specs.Moves.{proceed};
ghost use Rattle.cycle_machine.specs.Ready.{IsReady};
ghost use Rattle.run_place.specs.declared.place.Stage.TheVariants as stages;
ghost use Rattle.run_place.specs.Places.{held_of};
ghost use Rattle.mixed_cycle.specs.declared.machine.Awaited.TheVariants.{Ready};
ghost use Rattle.mixed_cycle.specs.Standing.{digital_at};
ghost use Rattle.mixed_cycle.specs.Machine.{Sound, moment_of};
ghost use Rattle.mixed_cycle.specs.Making.{Performs, worked};

use crate::machine::{Awaited, Machine};
use fix_core::Tick;
use lockstep_model::{Ask, Moved};
use run_place::{Stage, until};
use std::alloc::AllocError;
use step_data::{EventList, Tip};
use step_model::{Design, Kernel, Stepper};

/// The step from a tip ends by this time.
fn ends_by(tip: &Tip, t: Tick) -> bool
    ensures { result ≡ nat_le (end_of tip.now) t }
{
    let from = tip.t.get();
    let to = t.get();
    from <= to && tip.h <= to - from
}

impl<D: Design, S: Stepper<D>, K: Kernel<D>> Machine<D, S, K> {
    /// In a phase: the next attempt is looked for where it ends in time, else a side step is made.
    fn step(&mut self, out: &mut EventList) -> Result<Moved, AllocError>
        requires sound { Sound (D.system 0) S.part K.state self.old }
        requires awaited { self.old.awaited ≡ Ready }
        requires stage { self.old.place.stage ≡ stages.InPhase }
        requires ready { IsReady (next_of (D.system 0) (held_of (digital_at (D.system 0) (K.state self.old.kernel)) self.old.place)) }
        ensures { Performs (D.system 0) S.part S.count K.state (S.count self.old.stepper) self.new out.old out.new result (worked (D.system 0) (moment_of (D.system 0) K.state self.old)) }
    {
        let next = self.kernel.next_time();
        let t = until(&next, self.options.stop);
        if ends_by(&self.place.tip, t) {
            self.awaited = Awaited::Looking;
            Ok(Moved::Ask(Ask::Look { until: t }))
        } else {
            self.side(out)
        }
    }

    /// The next work, where all decisions are made.
    pub(crate) fn work(&mut self, out: &mut EventList) -> Result<Moved, AllocError>
        requires sound { Sound (D.system 0) S.part K.state self.old }
        requires awaited { self.old.awaited ≡ Ready }
        requires ready { IsReady (next_of (D.system 0) (held_of (digital_at (D.system 0) (K.state self.old.kernel)) self.old.place)) }
        ensures { Performs (D.system 0) S.part S.count K.state (S.count self.old.stepper) self.new out.old out.new result (worked (D.system 0) (moment_of (D.system 0) K.state self.old)) }
    {
        match self.place.stage {
            Stage::Unstarted => self.start(out),
            Stage::InDelta { to_time } => self.solve(to_time, out),
            Stage::InCycle { to_time } => self.cycle(to_time, out),
            Stage::InPhase => self.step(out),
            Stage::InSearch => self.probe(out),
            Stage::Finished(end) => Ok(Moved::Ended(end)),
            // It was decided what follows there.
            Stage::Placed => Ok(Moved::Ask(Ask::None)),
        }
    }

    /// All decisions and the next work, or the end.
    pub(crate) fn proceed(&mut self, out: &mut EventList) -> Result<Moved, AllocError>
        requires sound { Sound (D.system 0) S.part K.state self.old }
        requires awaited { self.old.awaited ≡ Ready }
        ensures { Performs (D.system 0) S.part S.count K.state (S.count self.old.stepper) self.new out.old out.new result (proceed (D.system 0) (moment_of (D.system 0) K.state self.old)) }
    {
        self.make_ready();
        self.work(out)
    }
}
