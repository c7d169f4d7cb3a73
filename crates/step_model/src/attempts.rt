//! How an attempt is made from the step that it tried.

ghost use Rattle.std.specs.Prelude.{◌≡◌, ◌≤◌, ◌+◌, length, List, Err};
ghost use Rattle.ams_value.specs.declared.val.Val.{Val};
ghost use Rattle.step_data.specs.declared.tip.Tip.{Tip};
ghost use Rattle.step_model.specs.System.{System, attempt, grown, accepted_by, attempt_by};
ghost use Rattle.step_model.specs.StepLaws.{HasStep, AttemptFrom, StepsWithin};
ghost use Rattle.step_data.specs.Options.{IsAllowed};

use fix_core::Tick;
use step_data::{Attempt, Cause, Kind, Options, Tip};

/// The step behind one that was accepted with this error: doubled where the error allows it.
fn grown(options: &Options, h: u64, err: u128) -> u64
    requires { h ≤ 1000000000000 }
    ensures { result ≡ grown options.now h err }
{
    if err <= u128::from(options.ltol / 4) {
        (2 * h).min(options.hmax)
    } else {
        h
    }
}

/// Where a step from the tip ends.
fn end_of(tip: &Tip) -> Tick
    requires time { tip.now.t ≤ 1000000000000000 }
    requires step { tip.now.h ≤ 1000000000000 }
    ensures { result ≡ tip.now.t + tip.now.h }
{
    Tick::new(tip.t.get() + tip.h).unwrap()
}

/// The attempt from the tip whose step led to the values in `out.x`, with this error in units of 10^-12.
pub fn accept(options: &Options, tip: &Tip, err: u128, out: &mut Attempt)
    requires time { tip.now.t ≤ 1000000000000000 }
    requires step { tip.now.h ≤ 1000000000000 }
    ensures { out.new ≡ accepted_by options.now tip.now (record { x = out.old.x; err = err }) }
{
    out.end = end_of(tip);
    out.kind = Kind::Accepted;
    out.next_h = grown(options, tip.h, err);
    out.cause = Cause::NONE;
}

/// The attempt from the tip whose step was refused: half the step comes next, unless it is below the least one.
pub fn refuse(options: &Options, tip: &Tip, cause: Cause, out: &mut Attempt)
    requires time { tip.now.t ≤ 1000000000000000 }
    requires step { tip.now.h ≤ 1000000000000 }
    requires room { length out.old.x ≡ length tip.now.x }
    ensures { out.new ≡ attempt_by options.now tip.now (Err cause) }
{
    out.end = end_of(tip);
    out.x.copy_from(&tip.x);
    out.cause = cause;
    let half = tip.h / 2;
    if options.hmin <= half {
        out.kind = Kind::Rejected;
        out.next_h = half;
    } else {
        out.kind = Kind::Failed;
        out.next_h = tip.h;
    }
}

/// An attempt ends where the tip's step ends, and the step behind it is between the least and the greatest one. It is
/// proved, and does nothing when it runs.
#[tactic(auto, using(crate::specs::StepLaws::attempt_from))]
pub fn attempts_keep_the_step()
    ensures { (sys : System) (frame : List Val) (tip : Tip) →
        HasStep sys.options tip.h → AttemptFrom sys.options tip (attempt sys frame tip) }
{}

/// With allowed options each step lies from one tick to 10^12. It is proved, and does nothing when it runs.
#[tactic(auto, using(crate::specs::StepLaws::attempts_within))]
pub fn steps_stay_within_bounds()
    ensures { (sys : System) (frame : List Val) (tip : Tip) →
        IsAllowed sys.options → HasStep sys.options tip.h → StepsWithin tip (attempt sys frame tip) }
{}
