//! The type of an expression of a row.
ghost use Rattle.std.specs.Prelude.{◌≡◌, ◌∷◌, [], nat_lt};
ghost use Rattle.design_meaning.specs.Typed.{typed, agreed as agreed_of, if_true, signal_type as signal_type_of, unknown_type as unknown_type_of, unary_result as unary_result_of, binary_result as binary_result_of, call_type as call_type_of, element_type as element_type_of, event_type as event_type_of};
ghost use Rattle.ams_value.specs.Types.{type_of, is_in_range};
ghost use Rattle.tape_cases.specs.Rows.{rows_scope};

use ams_value::{BinaryOperator, UnaryOperator, Val, ValueType, binary_type, unary_type};
use flat_expr::{FlatExpr, Function, SignalName, Unknown};

fn agreed(kind: ValueType, found: Option<ValueType>) -> Option<ValueType>
    ensures { result ≡ agreed_of kind found }
{
    match found {
        Some(other) if other == kind => Some(kind),
        _ => None,
    }
}

fn literal_type(literal: Val) -> Option<ValueType>
    ensures { result ≡ if_true (is_in_range (2 ∷ []) literal) (type_of literal) }
{
    if literal.is_in_range(&[2]) {
        Some(ValueType::of(literal))
    } else {
        None
    }
}

fn signal_type(name: SignalName) -> Option<ValueType>
    ensures { result ≡ signal_type_of rows_scope name }
{
    match name {
        SignalName::Signal(0) => Some(ValueType::Real),
        SignalName::Signal(1) => Some(ValueType::Integer),
        SignalName::Domain => Some(ValueType::Enumeration(0)),
        _ => None,
    }
}

fn event_type(name: SignalName) -> Option<ValueType>
    ensures { result ≡ event_type_of (signal_type_of rows_scope name) }
{
    match signal_type(name) {
        Some(_) => Some(ValueType::Boolean),
        None => None,
    }
}

fn unknown_type(unknown: Unknown) -> Option<ValueType>
    ensures { result ≡ unknown_type_of rows_scope unknown }
{
    match unknown {
        Unknown::Quantity(number) if number < 3 => Some(ValueType::Real),
        _ => None,
    }
}

fn unary_result(op: UnaryOperator, operand: Option<ValueType>) -> Option<ValueType>
    ensures { result ≡ unary_result_of op operand }
{
    match operand {
        Some(kind) => unary_type(op, kind),
        None => None,
    }
}

fn binary_result(
    op: BinaryOperator,
    left: Option<ValueType>,
    right: Option<ValueType>,
) -> Option<ValueType>
    ensures { result ≡ binary_result_of op left right }
{
    match (left, right) {
        (Some(left), Some(right)) => binary_type(op, left, right),
        _ => None,
    }
}

fn call_type(function: Function, argument: Option<ValueType>) -> Option<ValueType>
    ensures { result ≡ call_type_of function argument }
{
    match (function, argument) {
        (Function::Real, Some(ValueType::Integer)) => Some(ValueType::Real),
        (Function::Integer, Some(ValueType::Real)) => Some(ValueType::Integer),
        (Function::Exp | Function::Sin | Function::Cos | Function::Sqrt, Some(ValueType::Real)) => {
            Some(ValueType::Real)
        }
        _ => None,
    }
}

fn element_type(vector: Option<ValueType>, index: Option<ValueType>) -> Option<ValueType>
    ensures { result ≡ element_type_of vector index }
{
    match (vector, index) {
        (Some(ValueType::BitVector(_)), Some(ValueType::Integer)) => Some(ValueType::Bit),
        _ => None,
    }
}

/// The type of an expression, where it is typed.
pub fn type_in_rows(expr: &FlatExpr) -> Option<ValueType>
    ensures { result ≡ typed rows_scope expr.now }
{
    match expr {
        FlatExpr::Literal(literal) => literal_type(*literal),
        FlatExpr::Signal(name, kind) => agreed(*kind, signal_type(*name)),
        FlatExpr::Event(name) => event_type(*name),
        FlatExpr::Unknown(unknown) => unknown_type(*unknown),
        FlatExpr::Variable(_, _) => None,
        FlatExpr::NowTime => Some(ValueType::Time),
        FlatExpr::NowReal => Some(ValueType::Real),
        FlatExpr::Unary(op, kind, a) => agreed(*kind, unary_result(*op, type_in_rows(a.get()))),
        FlatExpr::Binary(op, kind, a, b) => {
            let left = type_in_rows(a.get());
            let right = type_in_rows(b.get());
            agreed(*kind, binary_result(*op, left, right))
        }
        FlatExpr::Call(function, a) => call_type(*function, type_in_rows(a.get())),
        FlatExpr::Index(a, b, _) => {
            let vector = type_in_rows(a.get());
            let index = type_in_rows(b.get());
            element_type(vector, index)
        }
    }
}
