//! Values that are assigned.
ghost use Rattle.std.specs.Prelude.{◌≡◌};
ghost use Rattle.expr_eval.specs.Condition.{CanEvaluate};
ghost use Rattle.flat_expr.specs.Subtype.{lies_in};
ghost use Rattle.statement_values.specs.Parts.{assigned_value, tested_parts, transaction, fits_both, CanEvaluateElement, PartsMakeAssignments};

use crate::activation::{Activation, evaluated, refusal};
use crate::delay::{delay_of, is_bad_delay, ticks, time_after};
use ams_value::Val;
use flat_expr::{Constraint, FlatExpr, WaveElement};
use message_codes::RANGE;
use step_data::{Refusal, Trans};

/// The subtype of the name that is written, and that of the signal.
#[derive(Clone, Copy)]
pub struct Subtypes {
    pub written: Constraint,
    pub declared: Constraint,
}

/// A transaction with its delay in ticks.
#[derive(Clone, Copy)]
pub struct Timed {
    pub transaction: Trans,
    pub delay: i64,
}

fn lies_in(value: &Val, constraint: &Constraint) -> bool
    ensures { result ≡ lies_in constraint.now value.now }
{
    constraint.holds(*value)
}

/// The value of an expression, which lies in the subtype of the target (IEEE 1076, 10.6.2).
pub fn assigned_value<A: Activation>(
    at: &A,
    constraint: &Constraint,
    expression: &FlatExpr,
) -> Result<Val, Refusal>
    requires { CanEvaluate (A.readings at.now) expression.now }
    ensures { result ≡ assigned_value (A.context at.now) (A.local at.now) constraint.now expression.now }
{
    match evaluated(at, expression) {
        Ok(value) => {
            if lies_in(&value, constraint) {
                Ok(value)
            } else {
                Err(refusal(at, RANGE))
            }
        }
        Err(refusal) => Err(refusal),
    }
}

/// The transaction of a value and a delay that are evaluated, and then tested: the subtypes, the delay, the time.
fn tested<A: Activation>(
    at: &A,
    value: &Val,
    delay: &Val,
    subtypes: &Subtypes,
    limit: Option<i64>,
    before: Option<i64>,
) -> Result<Timed, Refusal>
    ensures { result ≡ tested_parts (A.context at.now) (fits_both subtypes.now) limit before value.now delay.now }
{
    if !lies_in(value, &subtypes.written) || !lies_in(value, &subtypes.declared) {
        return Err(refusal(at, RANGE));
    }
    let ticks = ticks(*delay);
    if is_bad_delay(limit, before, ticks) {
        return Err(refusal(at, RANGE));
    }
    match time_after(at, *delay) {
        Ok(end) => Ok(Timed {
            transaction: Trans {
                at: end,
                value: *value,
            },
            delay: ticks,
        }),
        Err(refusal) => Err(refusal),
    }
}

/// The transaction of a waveform element, of a value in both subtypes: that of the name which is written, and that of the
/// signal (IEEE 1076, 10.5.2). `before` is the delay of the element before.
pub fn transaction<A: Activation>(
    at: &A,
    element: &WaveElement,
    subtypes: &Subtypes,
    limit: Option<i64>,
    before: Option<i64>,
) -> Result<Timed, Refusal>
    requires { CanEvaluateElement (A.readings at.now) element.now }
    ensures { result ≡ transaction (A.context at.now) (A.local at.now) (fits_both subtypes.now) limit before element.now }
{
    match evaluated(at, &element.value) {
        Ok(value) => match delay_of(at, &element.delay) {
            Ok(delay) => tested(at, &value, &delay, subtypes, limit, before),
            Err(refusal) => Err(refusal),
        },
        Err(refusal) => Err(refusal),
    }
}

/// Assignments are made of these parts. It is proved, and does nothing when it runs.
#[tactic(auto, using(crate::proofs::PartLaws::laws))]
pub fn parts_make_assignments()
    ensures { PartsMakeAssignments }
{}
