//! Conditions.
ghost use Rattle.std.specs.Prelude.{◌≡◌, Some};
ghost use Rattle.std.specs.Option.{ForSome};
ghost use Rattle.ams_value.specs.Values.{is_true};
ghost use Rattle.expr_eval.specs.Condition.{CanEvaluate};
ghost use Rattle.cycle_meaning.specs.World.{holds};

use crate::activation::{Activation, evaluated};
use ams_value::Val;
use flat_expr::FlatExpr;
use step_data::Refusal;

fn is_true(value: Val) -> bool
    ensures { result ≡ is_true value }
{
    match value {
        Val::Bool(truth) => truth,
        _ => false,
    }
}

/// Whether a condition that is written holds.
pub fn truth<A: Activation>(at: &A, condition: &FlatExpr) -> Result<bool, Refusal>
    requires { CanEvaluate (A.readings at.now) condition.now }
    ensures { result ≡ holds (A.context at.now) (A.local at.now) (Some condition.now) }
{
    match evaluated(at, condition) {
        Ok(value) => Ok(is_true(value)),
        Err(refusal) => Err(refusal),
    }
}

/// Whether a condition holds, which it does where none is written.
pub fn holds<A: Activation>(at: &A, condition: &Option<FlatExpr>) -> Result<bool, Refusal>
    requires { ForSome condition.now (λ e. CanEvaluate (A.readings at.now) e) }
    ensures { result ≡ holds (A.context at.now) (A.local at.now) condition.now }
{
    match condition {
        Some(expression) => truth(at, expression),
        None => Ok(true),
    }
}
