//! What is known of a value before the run.
ghost use Rattle.std.specs.Prelude.{◌≡◌, IfOk};
ghost use Rattle.elab_meaning.specs.Values as spec;
ghost use Rattle.ams_value.specs.declared.op.BinaryOperator.TheVariants as op2;
ghost use Rattle.ams_value.specs.Types.{IsTypedUnary, IsTypedBinary};
ghost use Rattle.elab_meaning.specs.declared.typed.StaticValue.TheVariants as kind;
ghost use Rattle.ams_value.specs.declared.val.Val.TheVariants as val;
ghost use Rattle.ams_value.specs.declared.value_type.ValueType.TheVariants as type;
ghost use Rattle.ams_value.specs.Types.{IsValue};
ghost use Rattle.flat_expr.specs.Expr.{kind_of_call};
ghost use Rattle.expr_types.specs.Known.{OnKnown, OnBothKnown, IsOf, MayJoin};

use ams_value::{
    BinaryOperator, UnaryOperator, Val, ValFault, binary, decided, integer_from_real,
    real_from_integer, unary,
};
use elab_meaning::StaticValue;
use fix_core::{Fix, NumFault};
use flat_expr::Function;
use name_scope::Kind;

fn answered(answer: Result<Val, ValFault>) -> StaticValue
    ensures { result ≡ spec.answered answer }
{
    match answer {
        Ok(value) => StaticValue::Known(value),
        Err(_) => StaticValue::Faulty,
    }
}

fn number(answer: Result<Fix, NumFault>) -> StaticValue
    ensures value { result ≡ spec.number answer }
    ensures sound { OnKnown (IsOf type.Real) result }
{
    match answer {
        Ok(value) => StaticValue::Known(Val::Real(value)),
        Err(_) => StaticValue::Faulty,
    }
}

fn whole(answer: Result<i32, ValFault>) -> StaticValue
    requires { IfOk answer (λ i. IsValue (val.Int i)) }
    ensures value { result ≡ spec.whole answer }
    ensures sound { OnKnown (IsOf type.Integer) result }
{
    match answer {
        Ok(value) => StaticValue::Known(Val::Int(value)),
        Err(_) => StaticValue::Faulty,
    }
}

pub fn unary_value(op: UnaryOperator, a: StaticValue) -> StaticValue
    requires { OnKnown (IsTypedUnary op) a }
    ensures { result ≡ spec.unary_value op a }
{
    match a {
        StaticValue::Known(a) => answered(unary(op, a)),
        _ => a,
    }
}

fn unless_decided(decided: Option<Val>, op: BinaryOperator, a: &Val, b: StaticValue) -> StaticValue
    requires { OnKnown (IsTypedBinary op a.now) b }
    ensures { result ≡ spec.unless_decided decided op a.now b }
{
    match (decided, b) {
        (Some(decided), _) => StaticValue::Known(decided),
        (None, StaticValue::Known(b)) => answered(binary(op, *a, b)),
        (None, b) => b,
    }
}

/// Beside an operand that is known later.
fn later(b: StaticValue) -> StaticValue
    ensures { result ≡ spec.binary_value op2.And kind.Later b }
{
    match b {
        StaticValue::Changing => StaticValue::Changing,
        _ => StaticValue::Later,
    }
}

/// Behind an operand whose evaluation has a fault.
fn faulty(b: StaticValue) -> StaticValue
    ensures { result ≡ spec.binary_value op2.And kind.Faulty b }
{
    match b {
        StaticValue::Changing => StaticValue::Changing,
        StaticValue::Later => StaticValue::Later,
        _ => StaticValue::Faulty,
    }
}

/// Behind an operand that is known.
fn known(op: BinaryOperator, a: &Val, b: StaticValue) -> StaticValue
    requires { OnKnown (IsTypedBinary op a.now) b }
    ensures { result ≡ spec.binary_value op (kind.Known a.now) b }
{
    match b {
        StaticValue::Changing => StaticValue::Changing,
        StaticValue::Later => StaticValue::Later,
        _ => unless_decided(decided(op, *a), op, a, b),
    }
}

pub fn binary_value(op: BinaryOperator, a: StaticValue, b: StaticValue) -> StaticValue
    requires { OnBothKnown (IsTypedBinary op) a b }
    ensures { result ≡ spec.binary_value op a b }
{
    match a {
        StaticValue::Changing => StaticValue::Changing,
        StaticValue::Later => later(b),
        StaticValue::Faulty => faulty(b),
        StaticValue::Known(a) => known(op, &a, b),
    }
}

/// Of two operands one of which is a vector of a length that isn't known.
pub fn open_value(a: &StaticValue, b: &StaticValue) -> StaticValue
    ensures { result ≡ spec.open_value a.now b.now }
{
    match (a, b) {
        (StaticValue::Changing, _) | (_, StaticValue::Changing) => StaticValue::Changing,
        (StaticValue::Later, _) | (_, StaticValue::Later) => StaticValue::Later,
        (StaticValue::Faulty, _) => StaticValue::Faulty,
        (StaticValue::Known(_), _) => StaticValue::Later,
    }
}

pub fn joined_value(
    op: BinaryOperator,
    s: Kind,
    t: Kind,
    a: StaticValue,
    b: StaticValue,
) -> StaticValue
    requires { MayJoin op s t a b }
    ensures { result ≡ spec.joined_value op s t a b }
{
    match s {
        Kind::Of(_) => match t {
            Kind::Of(_) => binary_value(op, a, b),
            Kind::Vector => open_value(&a, &b),
        },
        Kind::Vector => open_value(&a, &b),
    }
}

fn call_of(function: Function, argument: Val) -> StaticValue
    ensures value { result ≡ spec.call_of function argument }
    ensures sound { OnKnown (IsOf (kind_of_call function)) result }
{
    match (function, argument) {
        (Function::Real, Val::Int(i)) => StaticValue::Known(Val::Real(real_from_integer(i))),
        (Function::Integer, Val::Real(r)) => whole(integer_from_real(r)),
        (Function::Exp, Val::Real(r)) => number(math_fix::exp(r)),
        (Function::Sin, Val::Real(r)) => StaticValue::Known(Val::Real(math_fix::sin(r))),
        (Function::Cos, Val::Real(r)) => StaticValue::Known(Val::Real(math_fix::cos(r))),
        (Function::Sqrt, Val::Real(r)) => number(math_fix::sqrt(r)),
        _ => StaticValue::Faulty,
    }
}

pub fn call_value(function: Function, argument: StaticValue) -> StaticValue
    ensures value { result ≡ spec.call_value function argument }
    ensures sound { OnKnown (IsOf (kind_of_call function)) result }
{
    match argument {
        StaticValue::Known(argument) => call_of(function, argument),
        _ => argument,
    }
}
