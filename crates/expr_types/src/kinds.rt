//! The types of operators' results, as far as they are known.
ghost use Rattle.std.specs.Prelude.{◌≡◌};
ghost use Rattle.elab_meaning.specs.Kinds as spec;

use ams_value::{BinaryOperator, UnaryOperator, ValueType, binary_type, unary_type};
use name_scope::Kind;

fn same_type(s: ValueType, t: ValueType) -> bool
    ensures { result ≡ spec.same_type s t }
{
    match (s, t) {
        (ValueType::Boolean, ValueType::Boolean)
        | (ValueType::Bit, ValueType::Bit)
        | (ValueType::Integer, ValueType::Integer)
        | (ValueType::Real, ValueType::Real)
        | (ValueType::Time, ValueType::Time) => true,
        (ValueType::Enumeration(m), ValueType::Enumeration(n)) => m == n,
        (ValueType::BitVector(m), ValueType::BitVector(n)) => m == n,
        _ => false,
    }
}

/// A vector, whether its length is known or not.
pub fn is_vector(kind: Kind) -> bool
    ensures { result ≡ spec.is_vector kind }
{
    matches!(kind, Kind::Vector | Kind::Of(ValueType::BitVector(_)))
}

/// One type, as far as both are known.
pub fn same_kind(s: Kind, t: Kind) -> bool
    ensures { result ≡ spec.same_kind s t }
{
    match (s, t) {
        (Kind::Of(s), Kind::Of(t)) => same_type(s, t),
        _ => is_vector(s) && is_vector(t),
    }
}

/// The type that an expression of the flat design has.
pub fn value_type(kind: Kind) -> ValueType
    ensures { result ≡ spec.value_type kind }
{
    match kind {
        Kind::Of(kind) => kind,
        Kind::Vector => ValueType::BitVector(0),
    }
}

fn as_kind(kind: Option<ValueType>) -> Option<Kind>
    ensures { result ≡ spec.as_kind kind }
{
    match kind {
        Some(kind) => Some(Kind::Of(kind)),
        None => None,
    }
}

/// The type of an operator's result before an operand; none where it has no meaning for the type.
pub fn unary_kind(op: UnaryOperator, kind: Kind) -> Option<Kind>
    ensures { result ≡ spec.unary_kind op kind }
{
    match kind {
        Kind::Of(kind) => as_kind(unary_type(op, kind)),
        Kind::Vector => match op {
            UnaryOperator::Not => Some(Kind::Vector),
            _ => None,
        },
    }
}

fn open_logical(s: Kind, t: Kind) -> Option<Kind>
    ensures { result ≡ spec.open_logical s t }
{
    match (s, t) {
        (Kind::Vector, Kind::Of(ValueType::BitVector(n)))
        | (Kind::Of(ValueType::BitVector(n)), Kind::Vector) => {
            Some(Kind::Of(ValueType::BitVector(n)))
        }
        (Kind::Vector, Kind::Vector) => Some(Kind::Vector),
        _ => None,
    }
}

fn open_equality(s: Kind, t: Kind) -> Option<Kind>
    ensures { result ≡ spec.open_equality s t }
{
    if is_vector(s) && is_vector(t) {
        Some(Kind::Of(ValueType::Boolean))
    } else {
        None
    }
}

fn open_shift(s: Kind, t: Kind) -> Option<Kind>
    ensures { result ≡ spec.open_shift s t }
{
    match (s, t) {
        (Kind::Vector, Kind::Of(ValueType::Integer)) => Some(Kind::Vector),
        _ => None,
    }
}

fn is_joined(kind: Kind) -> bool
    ensures { result ≡ spec.is_joined kind }
{
    match kind {
        Kind::Of(ValueType::Bit) => true,
        _ => is_vector(kind),
    }
}

fn open_concat(s: Kind, t: Kind) -> Option<Kind>
    ensures { result ≡ spec.open_concat s t }
{
    if is_joined(s) && is_joined(t) {
        Some(Kind::Vector)
    } else {
        None
    }
}

fn open_kind(op: BinaryOperator, s: Kind, t: Kind) -> Option<Kind>
    ensures { result ≡ spec.open_kind op s t }
{
    match op {
        BinaryOperator::And
        | BinaryOperator::Or
        | BinaryOperator::Nand
        | BinaryOperator::Nor
        | BinaryOperator::Xor
        | BinaryOperator::Xnor => open_logical(s, t),
        BinaryOperator::Equal | BinaryOperator::NotEqual => open_equality(s, t),
        BinaryOperator::Sll
        | BinaryOperator::Srl
        | BinaryOperator::Sla
        | BinaryOperator::Sra
        | BinaryOperator::Rol
        | BinaryOperator::Ror => open_shift(s, t),
        BinaryOperator::Concat => open_concat(s, t),
        _ => None,
    }
}

/// The type of an operator's result between two operands; none where it has no meaning for the types.
pub fn binary_kind(op: BinaryOperator, s: Kind, t: Kind) -> Option<Kind>
    ensures { result ≡ spec.binary_kind op s t }
{
    match (s, t) {
        (Kind::Of(s), Kind::Of(t)) => as_kind(binary_type(op, s, t)),
        _ => open_kind(op, s, t),
    }
}
