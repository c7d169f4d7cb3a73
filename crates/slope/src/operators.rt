//! The slopes of operators, by the slopes of their operands.
ghost use Rattle.std.specs.Prelude.{◌≡◌, ◌<ℤ◌, pos};
ghost use Rattle.fix_core.specs.Passes.{and_then};
ghost use Rattle.design_meaning.specs.Value.{plus, minus, times, over, number_of, value_of, power_slope as power_slope_of, unary_slope as unary_slope_of, binary_slope as binary_slope_of};
ghost use Rattle.expr_eval.specs.Condition.{CanEvaluate};

use crate::numbers::{Outcome, difference, nothing, number_at, product, quotient, sum};
use ams_value::{BinaryOperator, UnaryOperator, Val, real_from_integer, real_power};
use design_meaning::EvalFault;
use expr_eval::{Values, number, value};
use fix_core::Fix;
use flat_expr::FlatExpr;

/// Of the absolute value of a number.
fn absolute_slope(operand: Outcome, slope: Fix) -> Outcome
    ensures { result ≡ unary_slope_of UnaryOperator.Abs operand slope }
{
    let operand = operand?;
    Ok(if operand.units() < 0 {
        slope.neg()
    } else {
        slope
    })
}

/// Of an operator with one operand.
pub fn unary_slope<V: Values>(
    op: UnaryOperator,
    operand: &FlatExpr,
    slope: Outcome,
    values: &V,
) -> Outcome
    requires { CanEvaluate (V.readings values.now) operand.now }
    ensures { result ≡ and_then (unary_slope_of op (number_of (value_of operand.now (V.readings values.now)))) slope }
{
    let slope = slope?;
    match op {
        UnaryOperator::Minus => Ok(slope.neg()),
        UnaryOperator::Abs => absolute_slope(number_at(operand, values), slope),
        _ => Ok(slope),
    }
}

fn sum_slope(left: Outcome, right: Outcome) -> Outcome
    ensures { result ≡ and_then (λ p. and_then (plus p) right) left }
{
    sum(left?, right?)
}

fn difference_slope(left: Outcome, right: Outcome) -> Outcome
    ensures { result ≡ and_then (λ p. and_then (minus p) right) left }
{
    difference(left?, right?)
}

/// Of a product of two numbers with these slopes.
fn product_slope(a: Outcome, left: Outcome, b: Outcome, right: Outcome) -> Outcome
    ensures { result ≡ and_then (λ p. and_then (λ y. and_then (λ first. and_then (λ x. and_then (λ q. and_then (plus first) (times x q)) right) a) (times p y)) b) left }
{
    let first = product(left?, b?)?;
    let second = product(a?, right?)?;
    sum(first, second)
}

/// Of a quotient with this value by a divisor.
fn quotient_slope(whole: Outcome, left: Outcome, divisor: Outcome, right: Outcome) -> Outcome
    ensures { result ≡ and_then (λ p. and_then (λ w. and_then (λ q. and_then (λ m. and_then (λ top. and_then (over top) divisor) (minus p m)) (times w q)) right) whole) left }
{
    let left = left?;
    let loss = product(whole?, right?)?;
    let top = difference(left, loss)?;
    quotient(top, divisor?)
}

/// Of a number to a power of at least 1.
#[tactic(auto, using(crate::proofs::Powers::positive))]
fn positive_power_slope(base: Outcome, slope: Outcome, exponent: i32) -> Outcome
    requires { pos 0 <ℤ exponent }
    ensures { result ≡ power_slope_of base slope (Val.Int exponent) }
{
    let lower = number(real_power(base?, exponent.unsigned_abs() - 1))?;
    let factor = product(real_from_integer(exponent), lower)?;
    product(factor, slope?)
}

/// Of a number to the power of an exponent.
#[tactic(auto, using(crate::proofs::Powers::others))]
fn power_slope(base: Outcome, slope: Outcome, exponent: Result<Val, EvalFault>) -> Outcome
    ensures { result ≡ and_then (power_slope_of base slope) exponent }
{
    match exponent? {
        Val::Int(n) if n > 0 => positive_power_slope(base, slope, n),
        _ => Ok(nothing()),
    }
}

/// An operator of two numbers: the whole and its operands.
#[derive(Drop)]
pub struct Operation<'a> {
    pub op: BinaryOperator,
    pub whole: &'a FlatExpr,
    pub left: &'a FlatExpr,
    pub right: &'a FlatExpr,
}

/// Of an operator with two operands that have these slopes.
pub fn binary_slope<V: Values>(
    operation: &Operation<'_>,
    left: Outcome,
    right: Outcome,
    values: &V,
) -> Outcome
    requires whole { CanEvaluate (V.readings values.now) operation.now.whole.now }
    requires left { CanEvaluate (V.readings values.now) operation.now.left.now }
    requires right { CanEvaluate (V.readings values.now) operation.now.right.now }
    ensures { let r = V.readings values.now in let b = value_of operation.now.right.now r in result ≡ binary_slope_of operation.now.op (number_of (value_of operation.now.whole.now r)) (number_of (value_of operation.now.left.now r)) left (number_of b) right b }
{
    match operation.op {
        BinaryOperator::Add => sum_slope(left, right),
        BinaryOperator::Subtract => difference_slope(left, right),
        BinaryOperator::Multiply => product_slope(
            number_at(operation.left, values),
            left,
            number_at(operation.right, values),
            right,
        ),
        BinaryOperator::Divide => quotient_slope(
            number_at(operation.whole, values),
            left,
            number_at(operation.right, values),
            right,
        ),
        BinaryOperator::Power => power_slope(
            number_at(operation.left, values),
            left,
            value(operation.right, values),
        ),
        _ => Ok(nothing()),
    }
}
