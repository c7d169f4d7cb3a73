//! The attempt that a trial is.
ghost use Rattle.std.specs.Prelude.{◌≡◌, ◌≤◌, length, Result};
ghost use Rattle.step_data.specs.declared.outcome.Cause.{Cause};
ghost use Rattle.step_model.specs.System.{Landing, attempt_by};
ghost use Rattle.step_model.specs.Answers.{trial_answer, trial_point};

use step_data::{Attempt, Options, Tip, Trial};
use step_model::{accept, refuse};

/// Makes the attempt from the tip of its step's trial, which left its point in `out.x`.
pub fn record_attempt(options: &Options, tip: &Tip, trial: Trial, out: &mut Attempt)
    requires time { tip.now.t ≤ 1000000000000000 }
    requires step { tip.now.h ≤ 1000000000000 }
    requires room { length out.old.x ≡ length tip.now.x }
    ensures { (r : Result Landing Cause) → trial ≡ trial_answer r → out.old.x ≡ trial_point tip.now.x r → out.new ≡ attempt_by options.now tip.now r }
{
    match trial {
        Trial::Good { err } => accept(options, tip, err, out),
        Trial::Refused(cause) => refuse(options, tip, cause, out),
    }
}
