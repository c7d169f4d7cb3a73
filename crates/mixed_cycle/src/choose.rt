//! The branches of the equations that give a point.

ghost use Rattle.std.specs.Prelude.{◌≡◌, ℕ, List, IsTrue, length};
ghost use Rattle.lockstep_model.specs.Lockstep.{branches_or};
ghost use Rattle.step_data.specs.declared.outcome.ChooseKind.TheVariants as kinds;
ghost use Rattle.run_place.specs.Giving.{chosen_of, olds_of};
ghost use Rattle.mixed_cycle.specs.Machine.{Sound};
ghost use Rattle.mixed_cycle.specs.Choosing.{is_good};

use crate::machine::Machine;
use fix_core::Tick;
use step_data::{Choices, ChooseKind, Frame, Point, Settled};
use step_model::{Design, Kernel, Stepper};

/// It was solved.
fn is_good(settled: Settled) -> bool
    ensures { result ≡ is_good settled }
{
    matches!(settled, Settled::Good)
}

/// The branches at a time and these values, unless a condition has a fault.
#[tactic(auto, using(crate::specs::Choosing::chosen_is))]
pub(crate) fn choose<D: Design, S: Stepper<D>>(
    stepper: &mut S,
    frame: &Frame,
    t: Tick,
    kind: ChooseKind,
    x: &Point,
    out: &mut Choices,
) -> bool
    requires part { S.part stepper.old ≡ 0 }
    requires frame { IsTrue ((D.system 0).is_frame frame.now) }
    requires point { length x.now ≡ (D.system 0).unknowns }
    requires room { length out.old ≡ (D.system 0).choices }
    ensures chosen { (olds : List ℕ) → chosen_of result out.new olds ≡ branches_or olds ((D.system 0).choose frame.now t kind x.now) }
    ensures length { length out.new ≡ (D.system 0).choices }
    ensures count { S.count stepper.new ≡ S.count stepper.old }
    ensures part { S.part stepper.new ≡ 0 }
{
    let settled = stepper.choose(frame, t, kind, x, out);
    is_good(settled)
}

impl<D: Design, S: Stepper<D>, K: Kernel<D>> Machine<D, S, K> {
    /// The branches of a step from the tip, unless a condition has a fault.
    #[tactic(auto, using(crate::specs::Choosing::chosen_is))]
    pub(crate) fn choose_step(&mut self) -> bool
        requires { Sound (D.system 0) S.part K.state self.old }
        ensures sound { Sound (D.system 0) S.part K.state self.new }
        ensures chosen { chosen_of result self.new.branches (olds_of self.old.place) ≡
            branches_or (olds_of self.old.place) ((D.system 0).choose self.old.frame self.old.place.tip.t kinds.Timed self.old.place.tip.x) }
        ensures same { self.new ≡ record self.old { stepper = self.new.stepper; branches = self.new.branches } }
        ensures count { S.count self.new.stepper ≡ S.count self.old.stepper }
    {
        let settled = self.stepper.choose(
            &self.frame,
            self.place.tip.t,
            ChooseKind::Timed,
            &self.place.tip.x,
            &mut self.branches,
        );
        is_good(settled)
    }
}
