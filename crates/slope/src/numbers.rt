//! Numbers with the faults of an expression.
ghost use Rattle.std.specs.Prelude.{◌≡◌, ◌+ℤ◌, pos};
ghost use Rattle.fix_core.specs.Units.{one};
ghost use Rattle.design_meaning.specs.Value.{plus, minus, times, over, number_of, value_of};
ghost use Rattle.expr_eval.specs.Condition.{CanEvaluate};

use design_meaning::EvalFault;
use expr_eval::{Values, number, units, value};
use fix_core::{Fix, UNITS_PER_ONE};
use flat_expr::FlatExpr;

/// A number, as a value or a slope, or its fault.
pub type Outcome = Result<Fix, EvalFault>;

pub fn nothing() -> Fix
    ensures { result ≡ pos 0 }
{
    Fix::exactly(0)
}

pub fn unit() -> Fix
    ensures { result ≡ one }
{
    Fix::exactly(UNITS_PER_ONE as i128)
}

pub fn two() -> Fix
    ensures { result ≡ one +ℤ one }
{
    Fix::exactly(2 * UNITS_PER_ONE as i128)
}

pub fn sum(a: Fix, b: Fix) -> Outcome
    ensures { result ≡ plus a b }
{
    number(a.add(b))
}

pub fn difference(a: Fix, b: Fix) -> Outcome
    ensures { result ≡ minus a b }
{
    number(a.sub(b))
}

pub fn product(a: Fix, b: Fix) -> Outcome
    ensures { result ≡ times a b }
{
    number(a.mul(b))
}

pub fn quotient(a: Fix, b: Fix) -> Outcome
    ensures { result ≡ over a b }
{
    number(a.div(b))
}

/// The number that is the value of a REAL expression.
pub fn number_at<V: Values>(expr: &FlatExpr, values: &V) -> Outcome
    requires { CanEvaluate (V.readings values.now) expr.now }
    ensures { result ≡ number_of (value_of expr.now (V.readings values.now)) }
{
    match value(expr, values) {
        Ok(value) => Ok(units(value)),
        Err(fault) => Err(fault),
    }
}
