//! The value of an expression.
ghost use Rattle.std.specs.Prelude.{◌≡◌};
ghost use Rattle.ams_value.specs.Types.{IsTypedUnary, IsTypedBinary};
ghost use Rattle.ams_value.specs.Values.{unary_of, binary_of, decided_by};
ghost use Rattle.design_meaning.specs.Faults.{operated};
ghost use Rattle.design_meaning.specs.Value.{value_of};
ghost use Rattle.expr_eval.specs.Condition.{CanEvaluate};

use crate::function::call;
use crate::numbers::{known_value, operated_value};
use crate::values::Values;
use crate::vector::element;
use ams_value::{BinaryOperator, UnaryOperator, Val, binary, decided, unary};
use design_meaning::EvalFault;
use fix_core::Fix;
use flat_expr::FlatExpr;

/// What an operator gives of a value.
fn unary_value(op: UnaryOperator, x: &Val) -> Result<Val, EvalFault>
    requires { IsTypedUnary op x.now }
    ensures { result ≡ operated (unary_of op x.now) }
{
    operated_value(unary(op, *x))
}

/// What the left operand of an operator decides.
fn decision(op: BinaryOperator, x: &Val) -> Option<Val>
    ensures { result ≡ decided_by op x.now }
{
    decided(op, *x)
}

/// What an operator gives of two values.
fn binary_value(op: BinaryOperator, x: &Val, y: &Val) -> Result<Val, EvalFault>
    requires { IsTypedBinary op x.now y.now }
    ensures { result ≡ operated (binary_of op x.now y.now) }
{
    operated_value(binary(op, *x, *y))
}

/// The value of an expression, or its first fault: the left operand comes first (IEEE 1076, clause 9).
pub fn value<V: Values>(expr: &FlatExpr, values: &V) -> Result<Val, EvalFault>
    requires { CanEvaluate (V.readings values.now) expr.now }
    ensures { result ≡ value_of expr.now (V.readings values.now) }
{
    match expr {
        FlatExpr::Literal(literal) => Ok(*literal),
        FlatExpr::Signal(name, _) => Ok(values.signal(*name)),
        FlatExpr::Event(name) => Ok(Val::Bool(values.event(*name))),
        FlatExpr::Unknown(unknown) => known_value(values.unknown(*unknown)),
        FlatExpr::Variable(number, _) => Ok(values.variable(*number)),
        FlatExpr::NowTime => Ok(Val::Time(values.time().get() as i64)),
        FlatExpr::NowReal => Ok(Val::Real(Fix::exactly(i128::from(values.time().get())))),
        FlatExpr::Unary(op, _, a) => {
            let x = value(a.get(), values)?;
            unary_value(*op, &x)
        }
        FlatExpr::Binary(op, _, a, b) => {
            let x = value(a.get(), values)?;
            match decision(*op, &x) {
                Some(answer) => Ok(answer),
                None => {
                    let y = value(b.get(), values)?;
                    binary_value(*op, &x, &y)
                }
            }
        }
        FlatExpr::Call(function, a) => {
            let x = value(a.get(), values)?;
            call(*function, &x)
        }
        FlatExpr::Index(a, b, range) => {
            let x = value(a.get(), values)?;
            let y = value(b.get(), values)?;
            element(range, &x, &y)
        }
    }
}
