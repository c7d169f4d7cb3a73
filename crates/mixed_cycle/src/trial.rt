//! A step of a given size.

ghost use Rattle.std.specs.Prelude.{◌≡◌, length};
ghost use Rattle.step_model.specs.Answers.{CanStep, IsStep, trial_answer, trial_point};
ghost use Rattle.step_model.specs.Counts.{more};

use step_data::{Frame, Point, Tip, Trial};
use step_model::{Design, Stepper};

/// A step of `s` ticks from the tip, by part 0.
pub(crate) fn trial<D: Design, S: Stepper<D>>(
    stepper: &mut S,
    frame: &Frame,
    tip: &Tip,
    s: u64,
    out: &mut Point,
) -> Trial
    requires part { S.part stepper.old ≡ 0 }
    requires tip { CanStep (D.system 0) frame.now tip.now }
    requires step { IsStep s }
    requires room { length out.old ≡ (D.system 0).unknowns }
    ensures answer { result ≡ trial_answer ((D.system 0).trial frame.now tip.now s) }
    ensures point { out.new ≡ trial_point tip.now.x ((D.system 0).trial frame.now tip.now s) }
    ensures length { length out.new ≡ (D.system 0).unknowns }
    ensures count { S.count stepper.new ≡ more (S.count stepper.old) }
    ensures part { S.part stepper.new ≡ 0 }
{
    stepper.trial(frame, tip, s, out)
}
