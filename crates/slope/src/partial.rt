//! The partial slopes of an expression.
ghost use Rattle.std.specs.Prelude.{◌≡◌, List, length, pos, replicate, OnErr, if◌then◌else◌, Ok};
ghost use Rattle.fix_core.specs.Passes.{and_then, each, answer};
ghost use Rattle.fix_core.specs.Units.{one};
ghost use Rattle.design_meaning.specs.Value.{same_unknown, slope_of, slopes_of};
ghost use Rattle.expr_eval.specs.Condition.{CanEvaluate};

use crate::functions::call_slope;
use crate::numbers::{nothing, number_at, unit};
use crate::operators::{Operation, binary_slope, unary_slope};
use design_meaning::EvalFault;
use expr_eval::Values;
use fix_core::Fix;
use flat_expr::{FlatExpr, Unknown};

/// The slope of an unknown by an unknown.
fn unknown_slope(of: Unknown, by: Unknown) -> Fix
    ensures { result ≡ (if same_unknown of by then one else pos 0) }
{
    if of == by { unit() } else { nothing() }
}

/// The slope of an expression by an unknown, or its first fault.
pub fn slope<V: Values>(expr: &FlatExpr, unknown: Unknown, values: &V) -> Result<Fix, EvalFault>
    requires { CanEvaluate (V.readings values.now) expr.now }
    ensures { result ≡ slope_of expr.now unknown (V.readings values.now) }
{
    match expr {
        FlatExpr::Unknown(other) => Ok(unknown_slope(*other, unknown)),
        FlatExpr::Unary(op, _, a) => {
            let operand = a.get();
            let inner = slope(operand, unknown, values);
            unary_slope(*op, operand, inner, values)
        }
        FlatExpr::Binary(op, _, a, b) => {
            let left = a.get();
            let right = b.get();
            let operation = Operation {
                op: *op,
                whole: expr,
                left,
                right,
            };
            let left_slope = slope(left, unknown, values);
            let right_slope = slope(right, unknown, values);
            binary_slope(&operation, left_slope, right_slope, values)
        }
        FlatExpr::Call(function, a) => {
            let argument = a.get();
            let inner = slope(argument, unknown, values);
            call_slope(*function, expr, argument, inner, values)
        }
        _ => Ok(nothing()),
    }
}

/// Writes the slope by each unknown.

fn write_slopes<V: Values>(
    expr: &FlatExpr,
    unknowns: &[Unknown],
    values: &V,
    out: &mut [Fix],
) -> Result<(), EvalFault>
    requires evaluable { CanEvaluate (V.readings values.now) expr.now }
    requires places { length out.old ≡ length unknowns.now }
    ensures { each (λ u. slope_of expr.now u (V.readings values.now)) unknowns.now ≡ answer result out.new }
{
    for i in 0..unknowns.len() {
        out[i] = slope(expr, unknowns[i], values)?;
    }
    Ok(())
}

/// The value, and then the slopes.
fn value_and_slopes<V: Values>(
    expr: &FlatExpr,
    unknowns: &[Unknown],
    values: &V,
    out: &mut [Fix],
) -> Result<Fix, EvalFault>
    requires evaluable { CanEvaluate (V.readings values.now) expr.now }
    requires places { length out.old ≡ length unknowns.now }
    ensures { slopes_of expr.now unknowns.now (V.readings values.now) ≡ and_then (λ v. Ok (v, out.new)) result }
{
    let value = number_at(expr, values)?;
    write_slopes(expr, unknowns, values, out)?;
    Ok(value)
}

/// The value of a REAL expression, and then its slopes by these unknowns in order, which `out` has after the call; or the
/// first fault, and `out` has zeros. Without unknowns the value alone is evaluated.
pub fn slopes<V: Values>(
    expr: &FlatExpr,
    unknowns: &[Unknown],
    values: &V,
    out: &mut [Fix],
) -> Result<Fix, EvalFault>
    requires evaluable { CanEvaluate (V.readings values.now) expr.now }
    requires places { length out.old ≡ length unknowns.now }
    ensures answer { slopes_of expr.now unknowns.now (V.readings values.now) ≡ and_then (λ v. Ok (v, out.new)) result }
    ensures zeros { OnErr result (out.new ≡ replicate (length out.old) (pos 0)) }
{
    let outcome = value_and_slopes(expr, unknowns, values, out);
    if outcome.is_err() {
        out.fill(nothing());
    }
    outcome
}
