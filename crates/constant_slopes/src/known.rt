//! What is known of an expression before anything is read.
ghost use Rattle.std.specs.Prelude.{◌≡◌, pos, None, if◌then◌else◌};
ghost use Rattle.fix_core.specs.Units.{one};
ghost use Rattle.fix_core.specs.Fixed.{sum_of, difference_of, product_of, quotient_of};
ghost use Rattle.design_meaning.specs.Value.{same_unknown};
ghost use Rattle.constant_slopes.specs.Constant.{literal_number as literal_number_of, found as found_of, with_two, negative as negative_of, is_zero as is_zero_of, zero_only as zero_only_of, unary_known as unary_known_of, product_known as product_known_of, quotient_known as quotient_known_of, binary_known as binary_known_of, call_known as call_known_of, known_of, constant_of};

use ams_value::{BinaryOperator, UnaryOperator, Val};
use fix_core::{Fix, NumFault, UNITS_PER_ONE};
use flat_expr::{FlatExpr, Function, Unknown};

/// The number that an expression is, and its slope by an unknown, where they are known.
#[derive(Clone, Copy)]
struct Known {
    number: Option<Fix>,
    slope: Option<Fix>,
}

fn nothing() -> Fix
    ensures { result ≡ pos 0 }
{
    Fix::exactly(0)
}

fn unknown_slope(of: Unknown, by: Unknown) -> Fix
    ensures { result ≡ (if same_unknown of by then one else pos 0) }
{
    if of == by {
        Fix::exactly(UNITS_PER_ONE as i128)
    } else {
        nothing()
    }
}

fn literal_number(literal: Val) -> Option<Fix>
    ensures { result ≡ literal_number_of literal }
{
    match literal {
        Val::Real(number) => Some(number),
        _ => None,
    }
}

fn found(outcome: Result<Fix, NumFault>) -> Option<Fix>
    ensures { result ≡ found_of outcome }
{
    match outcome {
        Ok(number) => Some(number),
        Err(_) => None,
    }
}

fn sum(a: Option<Fix>, b: Option<Fix>) -> Option<Fix>
    ensures { result ≡ with_two sum_of a b }
{
    found(a?.add(b?))
}

fn difference(a: Option<Fix>, b: Option<Fix>) -> Option<Fix>
    ensures { result ≡ with_two difference_of a b }
{
    found(a?.sub(b?))
}

fn product(a: Option<Fix>, b: Option<Fix>) -> Option<Fix>
    ensures { result ≡ with_two product_of a b }
{
    found(a?.mul(b?))
}

fn quotient(a: Option<Fix>, b: Option<Fix>) -> Option<Fix>
    ensures { result ≡ with_two quotient_of a b }
{
    found(a?.div(b?))
}

fn negative(number: Option<Fix>) -> Option<Fix>
    ensures { result ≡ negative_of number }
{
    Some(number?.neg())
}

fn is_zero(slope: Option<Fix>) -> bool
    ensures { result ≡ is_zero_of slope }
{
    match slope {
        Some(number) => number.magnitude() == 0,
        None => false,
    }
}

fn zero_only(slope: Option<Fix>) -> Option<Fix>
    ensures { result ≡ zero_only_of slope }
{
    if is_zero(slope) {
        Some(nothing())
    } else {
        None
    }
}

fn unary_known(op: UnaryOperator, operand: Known) -> Known
    ensures { result ≡ unary_known_of op operand }
{
    match op {
        UnaryOperator::Minus => Known {
            number: negative(operand.number),
            slope: negative(operand.slope),
        },
        UnaryOperator::Abs => Known {
            number: None,
            slope: zero_only(operand.slope),
        },
        _ => Known {
            number: None,
            slope: operand.slope,
        },
    }
}

/// Of a product: of a number that is known and a slope, beside a part of 0.
fn product_known(a: Known, b: Known) -> Option<Fix>
    ensures { result ≡ product_known_of a b }
{
    match (is_zero(a.slope), is_zero(b.slope)) {
        (true, true) => Some(nothing()),
        (true, false) => sum(Some(nothing()), product(a.number, b.slope)),
        (false, true) => sum(product(a.slope, b.number), Some(nothing())),
        (false, false) => None,
    }
}

/// Of a quotient by a divisor that is known.
fn quotient_known(a: Known, b: Known) -> Option<Fix>
    ensures { result ≡ quotient_known_of a b }
{
    if is_zero(b.slope) {
        quotient(difference(a.slope, Some(nothing())), b.number)
    } else {
        None
    }
}

fn binary_known(op: BinaryOperator, a: Known, b: Known) -> Option<Fix>
    ensures { result ≡ binary_known_of op a b }
{
    match op {
        BinaryOperator::Add => sum(a.slope, b.slope),
        BinaryOperator::Subtract => difference(a.slope, b.slope),
        BinaryOperator::Multiply => product_known(a, b),
        BinaryOperator::Divide => quotient_known(a, b),
        BinaryOperator::Power => None,
        _ => Some(nothing()),
    }
}

fn call_known(function: Function, argument: Known) -> Option<Fix>
    ensures { result ≡ call_known_of function argument }
{
    match function {
        Function::Exp | Function::Sin | Function::Cos => zero_only(argument.slope),
        Function::Sqrt => None,
        Function::Real | Function::Integer => Some(nothing()),
    }
}

fn sloped(slope: Option<Fix>) -> Known
    ensures number { result.number ≡ None }
    ensures slope { result.slope ≡ slope }
{
    Known {
        number: None,
        slope,
    }
}

fn known_parts(expr: &FlatExpr, unknown: Unknown) -> Known
    ensures { result ≡ known_of unknown expr.now }
{
    match expr {
        FlatExpr::Literal(literal) => Known {
            number: literal_number(*literal),
            slope: Some(nothing()),
        },
        FlatExpr::Unknown(other) => sloped(Some(unknown_slope(*other, unknown))),
        FlatExpr::Unary(op, _, a) => unary_known(*op, known_parts(a.get(), unknown)),
        FlatExpr::Binary(op, _, a, b) => {
            let left = known_parts(a.get(), unknown);
            let right = known_parts(b.get(), unknown);
            sloped(binary_known(*op, left, right))
        }
        FlatExpr::Call(function, a) => sloped(call_known(*function, known_parts(a.get(), unknown))),
        _ => sloped(Some(nothing())),
    }
}

/// The slope that an expression has by an unknown wherever it has a value, where it is known before anything is read.
pub fn constant_slope(expr: &FlatExpr, unknown: Unknown) -> Option<Fix>
    ensures { result ≡ constant_of unknown expr.now }
{
    known_parts(expr, unknown).slope
}
