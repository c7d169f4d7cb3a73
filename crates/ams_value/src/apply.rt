//! The predefined operators.
ghost use Rattle.std.specs.Prelude.{◌≡◌};
ghost use Rattle.ams_value.specs.Types.{IsTypedUnary, IsTypedBinary};
ghost use Rattle.ams_value.specs.Values.{unary_of, binary_of, negated, magnitude_of, inverted};
ghost use Rattle.ams_value.specs.Results.{ResultsAreTyped, ResultsAreInRange, RangesGiveValues, EqualsDecides, LeftDecides};

use crate::arithmetic::{add, divide, modulo, multiply, remainder, subtract};
use crate::compare::{equal, less};
use crate::fault::ValFault;
use crate::logic::{logical, ones};
use crate::op::{BinaryOperator, UnaryOperator};
use crate::power::power;
use crate::shift::{concat, shift};
use crate::val::Val;

/// A number with the other sign.
#[tactic(auto, unfolding(crate::specs::Values::negated))]
fn negate(a: Val) -> Val
    requires { IsTypedUnary UnaryOperator.Minus a }
    ensures { result ≡ negated a }
{
    match a {
        Val::Int(a) => Val::Int(-a),
        Val::Real(a) => Val::Real(a.neg()),
        Val::Time(a) => Val::Time(-a),
        _ => a,
    }
}

/// A number without its sign.
#[tactic(auto, unfolding(crate::specs::Values::magnitude_of))]
fn absolute(a: Val) -> Val
    requires { IsTypedUnary UnaryOperator.Abs a }
    ensures { result ≡ magnitude_of a }
{
    match a {
        Val::Int(a) => Val::Int(a.abs()),
        Val::Real(a) => Val::Real(a.abs()),
        Val::Time(a) => Val::Time(a.abs()),
        _ => a,
    }
}

/// The other truth value, or the other value of each bit.
#[tactic(auto, using(crate::proofs::Vectors::inverses), unfolding(crate::specs::Values::inverted))]
fn invert(a: Val) -> Val
    requires { IsTypedUnary UnaryOperator.Not a }
    ensures { result ≡ inverted a }
{
    match a {
        Val::Bool(a) => Val::Bool(!a),
        Val::Bit(a) => Val::Bit(!a),
        Val::Bits(n, a) => Val::Bits(n, ones(n) - a),
        _ => a,
    }
}

/// What an operator with one operand gives.
#[tactic(auto, unfolding(crate::specs::Values::unary_of))]
pub fn unary(op: UnaryOperator, a: Val) -> Result<Val, ValFault>
    requires { IsTypedUnary op a }
    ensures { result ≡ unary_of op a }
{
    match op {
        UnaryOperator::Plus => Ok(a),
        UnaryOperator::Minus => Ok(negate(a)),
        UnaryOperator::Abs => Ok(absolute(a)),
        UnaryOperator::Not => Ok(invert(a)),
    }
}

/// What an operator with two operands gives. Both are evaluated.
#[tactic(auto, unfolding(crate::specs::Values::binary_of))]
pub fn binary(op: BinaryOperator, a: Val, b: Val) -> Result<Val, ValFault>
    requires { IsTypedBinary op a b }
    ensures { result ≡ binary_of op a b }
{
    match op {
        BinaryOperator::And
        | BinaryOperator::Or
        | BinaryOperator::Nand
        | BinaryOperator::Nor
        | BinaryOperator::Xor
        | BinaryOperator::Xnor => logical(op, a, b),
        BinaryOperator::Equal => Ok(Val::Bool(equal(a, b))),
        BinaryOperator::NotEqual => Ok(Val::Bool(!equal(a, b))),
        BinaryOperator::Less => Ok(Val::Bool(less(a, b))),
        BinaryOperator::LessEqual => Ok(Val::Bool(!less(b, a))),
        BinaryOperator::Greater => Ok(Val::Bool(less(b, a))),
        BinaryOperator::GreaterEqual => Ok(Val::Bool(!less(a, b))),
        BinaryOperator::Sll
        | BinaryOperator::Srl
        | BinaryOperator::Sla
        | BinaryOperator::Sra
        | BinaryOperator::Rol
        | BinaryOperator::Ror => shift(op, a, b),
        BinaryOperator::Add => add(a, b),
        BinaryOperator::Subtract => subtract(a, b),
        BinaryOperator::Concat => concat(a, b),
        BinaryOperator::Multiply => multiply(a, b),
        BinaryOperator::Divide => divide(a, b),
        BinaryOperator::Mod => modulo(a, b),
        BinaryOperator::Rem => remainder(a, b),
        BinaryOperator::Power => power(a, b),
    }
}

/// The laws of results. They are proved, and do nothing when they run.
#[tactic(auto, using(crate::proofs::Typed::results, crate::proofs::Ranged::results_ranged))]
pub fn results_are_typed()
    ensures typed { ResultsAreTyped }
    ensures in_range { ResultsAreInRange }
    ensures decided { LeftDecides }
{}

/// The laws of values. They are proved, and do nothing when they run.
#[tactic(auto, using(crate::specs::Laws::values))]
pub fn ranges_give_values()
    ensures ranges { RangesGiveValues }
    ensures equal { EqualsDecides }
{}
