//! The slopes of functions, by the slopes of their arguments.
ghost use Rattle.std.specs.Prelude.{◌≡◌};
ghost use Rattle.design_meaning.specs.Value.{called_slope, number_of, value_of};
ghost use Rattle.expr_eval.specs.Condition.{CanEvaluate};

use crate::numbers::{Outcome, nothing, number_at, product, quotient, two};
use expr_eval::Values;
use flat_expr::{FlatExpr, Function};
use math_fix::{cos, sin};

fn exp_slope(whole: Outcome, slope: Outcome) -> Outcome
    ensures { result ≡ called_slope Function.Exp whole whole slope }
{
    product(whole?, slope?)
}

fn sin_slope(argument: Outcome, slope: Outcome) -> Outcome
    ensures { result ≡ called_slope Function.Sin argument argument slope }
{
    product(cos(argument?), slope?)
}

fn cos_slope(argument: Outcome, slope: Outcome) -> Outcome
    ensures { result ≡ called_slope Function.Cos argument argument slope }
{
    Ok(product(sin(argument?), slope?)?.neg())
}

fn sqrt_slope(whole: Outcome, slope: Outcome) -> Outcome
    ensures { result ≡ called_slope Function.Sqrt whole whole slope }
{
    let slope = slope?;
    quotient(slope, product(two(), whole?)?)
}

/// Of a function of an argument with this slope. A conversion has none.
pub fn call_slope<V: Values>(
    function: Function,
    whole: &FlatExpr,
    argument: &FlatExpr,
    slope: Outcome,
    values: &V,
) -> Outcome
    requires whole { CanEvaluate (V.readings values.now) whole.now }
    requires argument { CanEvaluate (V.readings values.now) argument.now }
    ensures { let r = V.readings values.now in result ≡ called_slope function (number_of (value_of whole.now r)) (number_of (value_of argument.now r)) slope }
{
    match function {
        Function::Exp => exp_slope(number_at(whole, values), slope),
        Function::Sin => sin_slope(number_at(argument, values), slope),
        Function::Cos => cos_slope(number_at(argument, values), slope),
        Function::Sqrt => sqrt_slope(number_at(whole, values), slope),
        Function::Real | Function::Integer => Ok(nothing()),
    }
}
