//! Delays, timeouts and rejection limits.
ghost use Rattle.std.specs.Prelude.{◌≡◌, ◌≤◌, option_map};
ghost use Rattle.std.specs.Option.{ForSome};
ghost use Rattle.ams_value.specs.Values.{ticks_of};
ghost use Rattle.expr_eval.specs.Condition.{CanEvaluate};
ghost use Rattle.cycle_meaning.specs.World.{time_after};
ghost use Rattle.cycle_meaning.specs.Statements.{delay_of, bad_delay, limit_of, timeout_of};
ghost use Rattle.statement_values.specs.Limits.{CanEvaluateLimit};

use crate::activation::{Activation, evaluated, refusal};
use ams_value::Val;
use fix_core::Tick;
use flat_expr::{DelayMechanism, FlatExpr};
use message_codes::{RANGE, TIME_OVERFLOW};
use step_data::Refusal;

pub fn ticks(value: Val) -> i64
    ensures { result ≡ ticks_of value }
{
    match value {
        Val::Time(ticks) => ticks,
        _ => 0,
    }
}

/// The time to which a delay leads. A negative delay is refused, and so is a time past the greatest one.
pub fn time_after<A: Activation>(at: &A, delay: Val) -> Result<Tick, Refusal>
    ensures { result ≡ time_after (A.context at.now) delay }
{
    match delay {
        Val::Time(ticks) => {
            if ticks < 0 {
                return Err(refusal(at, RANGE));
            }
            match Tick::new(at.time().get() + ticks as u64) {
                Some(end) => Ok(end),
                None => Err(refusal(at, TIME_OVERFLOW)),
            }
        }
        _ => Err(refusal(at, RANGE)),
    }
}

/// The time of a timeout, where one is written (IEEE 1076, 10.2).
pub fn timeout_of<A: Activation>(
    at: &A,
    timeout: &Option<FlatExpr>,
) -> Result<Option<Tick>, Refusal>
    requires { ForSome timeout.now (λ e. CanEvaluate (A.readings at.now) e) }
    ensures { result ≡ timeout_of (A.context at.now) (A.local at.now) timeout.now }
{
    match timeout {
        Some(expression) => match evaluated(at, expression) {
            Ok(delay) => match time_after(at, delay) {
                Ok(end) => Ok(Some(end)),
                Err(refusal) => Err(refusal),
            },
            Err(refusal) => Err(refusal),
        },
        None => Ok(None),
    }
}

/// The delay of a waveform element, 0 ps where none is written (IEEE 1076, 10.5.2).
pub fn delay_of<A: Activation>(at: &A, delay: &Option<FlatExpr>) -> Result<Val, Refusal>
    requires { ForSome delay.now (λ e. CanEvaluate (A.readings at.now) e) }
    ensures { result ≡ delay_of (A.context at.now) (A.local at.now) delay.now }
{
    match delay {
        Some(expression) => evaluated(at, expression),
        None => Ok(Val::Time(0)),
    }
}

/// Whether a delay is refused: it is negative, or not above the one before, or as the first one below the rejection limit.
pub fn is_bad_delay(limit: Option<i64>, before: Option<i64>, delay: i64) -> bool
    ensures { result ≡ bad_delay limit before delay }
{
    match before {
        Some(earlier) => delay < 0 || delay <= earlier,
        None => match limit {
            Some(least) => delay < 0 || delay < least,
            None => delay < 0,
        },
    }
}

/// The rejection limit that is written, in ticks; a negative one is refused (IEEE 1076, 10.5.2).
pub fn limit_of<A: Activation>(at: &A, mechanism: &DelayMechanism) -> Result<Option<i64>, Refusal>
    requires { CanEvaluateLimit (A.readings at.now) mechanism.now }
    ensures { result ≡ limit_of (A.context at.now) (A.local at.now) mechanism.now }
{
    match mechanism {
        DelayMechanism::Inertial(Some(expression)) => match evaluated(at, expression) {
            Ok(value) => {
                let limit = ticks(value);
                if limit < 0 {
                    return Err(refusal(at, RANGE));
                }
                Ok(Some(limit))
            }
            Err(refusal) => Err(refusal),
        },
        DelayMechanism::Inertial(None) => Ok(None),
        DelayMechanism::Transport => Ok(None),
    }
}
