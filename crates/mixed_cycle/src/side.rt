//! A side step to the next time.

ghost use Rattle.std.specs.Prelude.{◌≡◌, ◌≤◌, ◌<◌, ◌^◌, ◌-◌, ◌/◌, ◌++◌, false, not, max, nat_lt, length, OnOk, OnErr};
ghost use Rattle.step_model.specs.Kernel.{AddsFront};
ghost use Rattle.lockstep_model.specs.declared.moves.Moved.TheVariants as says;
ghost use Rattle.lockstep_model.specs.Lockstep.{ends_in_time};
ghost use Rattle.lockstep_model.specs.Walk.{ask_of};
ghost use Rattle.cycle_machine.specs.Held.{next_of};
ghost use Rattle.cycle_machine.specs.Ready.{IsReady};
ghost use Rattle.run_place.specs.declared.place.Stage.TheVariants as stages;
ghost use Rattle.run_place.specs.Places.{held_of, state_of};
ghost use Rattle.mixed_cycle.specs.declared.machine.Awaited.TheVariants.{Ready};
ghost use Rattle.mixed_cycle.specs.Standing.{digital_at};
ghost use Rattle.mixed_cycle.specs.Machine.{Sound, moment_of};
ghost use Rattle.mixed_cycle.specs.Making.{Performs, worked};
ghost use Rattle.mixed_cycle.specs.Landing.{landed_left, landed_events, side_left};

use crate::choose::choose;
use crate::machine::Machine;
use crate::trial::trial;
use above_events::differs;
use fix_core::Tick;
use lockstep_model::{Ask, Moved};
use run_place::{RunPlace, until};
use std::alloc::{AllocError, Global};
use std::mem::swap;
use step_data::{Cause, Choices, ChooseKind, EventList, Trial};
use step_model::{Design, Kernel, Stepper};

/// How many ticks lie between two times.
fn ticks_between(from: Tick, to: Tick) -> u64
    requires { from ≤ to }
    ensures { result ≡ to - from }
{
    to.get() - from.get()
}

/// What a side step of so many ticks leaves where it was refused: its half is tried, unless it is below the least step.
fn refuse(place: &mut RunPlace, t: Tick, step: u64, hmin: u64, cause: Cause) -> Moved
    ensures place { place.new ≡ side_left (nat_lt (step / 2) hmin) t step cause.code place.old }
    ensures said { result ≡ says.Ask (ask_of (not (nat_lt (step / 2) hmin))) }
{
    if step / 2 < hmin {
        place.end_small(t, cause.code);
        Moved::Ask(Ask::None)
    } else {
        place.halve(step);
        Moved::Ask(Ask::Begin)
    }
}

/// What a step to this time leaves that led to the values at the later bound: a search where a threshold is crossed there,
/// else the arrival.
fn land(
    place: &mut RunPlace,
    is_crossing: bool,
    t: Tick,
    xres: u64,
    next: &Option<Tick>,
    alloc: Global,
    out: &mut EventList,
    is_chosen: bool,
    branches: &Choices,
) -> Result<(), AllocError>
    requires order { max place.old.time place.old.tip.t < t }
    requires distance { 1 ≤ xres }
    requires few { length branches.now < 2 ^ 32 }
    requires lengths { length place.old.branches ≡ length branches.now }
    ensures place { OnOk result (place.new ≡ landed_left is_crossing t xres next.now is_chosen branches.now place.old) }
    ensures ok { OnOk result (out.new ≡ out.old ++ landed_events is_crossing t xres is_chosen branches.now place.old) }
    ensures err { OnErr result (AddsFront out.old out.new (landed_events is_crossing t xres is_chosen branches.now place.old)) }
{
    if is_crossing {
        place.cross(t, xres);
        place.give_near(alloc, out, is_chosen, branches)
    } else {
        place.give_bound(alloc, out, t, is_chosen, branches)?;
        place.arrive_at(t, next, is_chosen, branches);
        Ok(())
    }
}

impl<D: Design, S: Stepper<D>, K: Kernel<D>> Machine<D, S, K> {
    /// Makes a side step to the next time, where the tip's step doesn't end in time.
    pub(crate) fn side(&mut self, out: &mut EventList) -> Result<Moved, AllocError>
        requires sound { Sound (D.system 0) S.part K.state self.old }
        requires awaited { self.old.awaited ≡ Ready }
        requires stage { self.old.place.stage ≡ stages.InPhase }
        requires ready { IsReady (next_of (D.system 0) (held_of (digital_at (D.system 0) (K.state self.old.kernel)) self.old.place)) }
        requires late { ends_in_time (D.system 0) (state_of (digital_at (D.system 0) (K.state self.old.kernel)) self.old.place) ≡ false }
        ensures { Performs (D.system 0) S.part S.count K.state (S.count self.old.stepper) self.new out.old out.new result (worked (D.system 0) (moment_of (D.system 0) K.state self.old)) }
    {
        let next = self.kernel.next_time();
        let t = until(&next, self.options.stop);
        let step = ticks_between(self.place.tip.t, t);
        self.place.count_try();
        let answer = trial::<D, S>(
            &mut self.stepper,
            &self.frame,
            &self.place.tip,
            step,
            &mut self.x,
        );
        match answer {
            Trial::Refused(cause) => Ok(refuse(&mut self.place, t, step, self.options.hmin, cause)),
            Trial::Good { .. } => {
                swap(&mut self.x, &mut self.place.at_hi);
                let is_chosen = choose::<D, S>(
                    &mut self.stepper,
                    &self.frame,
                    self.place.tip.t,
                    ChooseKind::Timed,
                    &self.place.tip.x,
                    &mut self.branches,
                );
                let is_crossing = differs(&self.place.at_hi, self.kernel.thresholds());
                land(
                    &mut self.place,
                    is_crossing,
                    t,
                    self.options.xres,
                    &next,
                    self.alloc,
                    out,
                    is_chosen,
                    &self.branches,
                )?;
                Ok(Moved::Ask(Ask::None))
            }
        }
    }
}
