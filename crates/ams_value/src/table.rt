//! The types of the operators' results, by the types of the operands (IEEE 1076-2008, 9.2).
ghost use Rattle.std.specs.Prelude.{◌≡◌};
ghost use Rattle.ams_value.specs.Types.{number_type, truth_type, unary_type, logical_type, order_type, equality_type, shift_type, sum_type, vector_type, concat_type, product_type, quotient_type, remainder_type, power_type, binary_type};

use crate::op::{BinaryOperator, UnaryOperator};
use crate::val::MOST_ELEMENTS;
use crate::value_type::ValueType;

/// The type of the result of an operator with one operand; none where it has no meaning for the type.
pub fn unary_type(op: UnaryOperator, t: ValueType) -> Option<ValueType>
    ensures { result ≡ unary_type op t }
{
    match op {
        UnaryOperator::Plus | UnaryOperator::Minus | UnaryOperator::Abs => number(t),
        UnaryOperator::Not => truth(t),
    }
}

fn number(t: ValueType) -> Option<ValueType>
    ensures { result ≡ number_type t }
{
    match t {
        ValueType::Integer | ValueType::Real | ValueType::Time => Some(t),
        _ => None,
    }
}

fn truth(t: ValueType) -> Option<ValueType>
    ensures { result ≡ truth_type t }
{
    match t {
        ValueType::Boolean | ValueType::Bit | ValueType::BitVector(_) => Some(t),
        _ => None,
    }
}

fn logical(s: ValueType, t: ValueType) -> Option<ValueType>
    ensures { result ≡ logical_type s t }
{
    match (s, t) {
        (ValueType::Boolean, ValueType::Boolean) => Some(ValueType::Boolean),
        (ValueType::Bit, ValueType::Bit) => Some(ValueType::Bit),
        (ValueType::BitVector(m), ValueType::BitVector(n)) if m == n => {
            Some(ValueType::BitVector(m))
        }
        _ => None,
    }
}

fn order(s: ValueType, t: ValueType) -> Option<ValueType>
    ensures { result ≡ order_type s t }
{
    match (s, t) {
        (ValueType::Boolean, ValueType::Boolean)
        | (ValueType::Bit, ValueType::Bit)
        | (ValueType::Integer, ValueType::Integer)
        | (ValueType::Real, ValueType::Real)
        | (ValueType::Time, ValueType::Time) => Some(ValueType::Boolean),
        (ValueType::Enumeration(m), ValueType::Enumeration(n)) if m == n => {
            Some(ValueType::Boolean)
        }
        _ => None,
    }
}

fn equality(s: ValueType, t: ValueType) -> Option<ValueType>
    ensures { result ≡ equality_type s t }
{
    match (s, t) {
        (ValueType::BitVector(_), ValueType::BitVector(_)) => Some(ValueType::Boolean),
        _ => order(s, t),
    }
}

fn shift(s: ValueType, t: ValueType) -> Option<ValueType>
    ensures { result ≡ shift_type s t }
{
    match (s, t) {
        (ValueType::BitVector(n), ValueType::Integer) => Some(ValueType::BitVector(n)),
        _ => None,
    }
}

fn sum(s: ValueType, t: ValueType) -> Option<ValueType>
    ensures { result ≡ sum_type s t }
{
    match (s, t) {
        (ValueType::Integer, ValueType::Integer)
        | (ValueType::Real, ValueType::Real)
        | (ValueType::Time, ValueType::Time) => Some(s),
        _ => None,
    }
}

fn vector(n: u16) -> Option<ValueType>
    ensures { result ≡ vector_type n }
{
    if n <= u16::from(MOST_ELEMENTS) {
        Some(ValueType::BitVector(n as u8))
    } else {
        None
    }
}

fn concat(s: ValueType, t: ValueType) -> Option<ValueType>
    ensures { result ≡ concat_type s t }
{
    match (s, t) {
        (ValueType::Bit, ValueType::Bit) => Some(ValueType::BitVector(2)),
        (ValueType::Bit, ValueType::BitVector(n)) => vector(1 + u16::from(n)),
        (ValueType::BitVector(m), ValueType::Bit) => vector(u16::from(m) + 1),
        (ValueType::BitVector(m), ValueType::BitVector(n)) => vector(u16::from(m) + u16::from(n)),
        _ => None,
    }
}

fn product(s: ValueType, t: ValueType) -> Option<ValueType>
    ensures { result ≡ product_type s t }
{
    match (s, t) {
        (ValueType::Integer, ValueType::Integer) | (ValueType::Real, ValueType::Real) => Some(s),
        (ValueType::Time, ValueType::Integer | ValueType::Real)
        | (ValueType::Integer | ValueType::Real, ValueType::Time) => Some(ValueType::Time),
        _ => None,
    }
}

fn quotient(s: ValueType, t: ValueType) -> Option<ValueType>
    ensures { result ≡ quotient_type s t }
{
    match (s, t) {
        (ValueType::Integer, ValueType::Integer) | (ValueType::Real, ValueType::Real) => Some(s),
        (ValueType::Time, ValueType::Integer | ValueType::Real) => Some(ValueType::Time),
        (ValueType::Time, ValueType::Time) => Some(ValueType::Integer),
        _ => None,
    }
}

fn remainder(s: ValueType, t: ValueType) -> Option<ValueType>
    ensures { result ≡ remainder_type s t }
{
    match (s, t) {
        (ValueType::Integer, ValueType::Integer) => Some(ValueType::Integer),
        _ => None,
    }
}

fn power(s: ValueType, t: ValueType) -> Option<ValueType>
    ensures { result ≡ power_type s t }
{
    match (s, t) {
        (ValueType::Integer | ValueType::Real, ValueType::Integer) => Some(s),
        _ => None,
    }
}

/// The type of the result of an operator with two operands; none where it has no meaning for the types.
pub fn binary_type(op: BinaryOperator, s: ValueType, t: ValueType) -> Option<ValueType>
    ensures { result ≡ binary_type op s t }
{
    match op {
        BinaryOperator::And
        | BinaryOperator::Or
        | BinaryOperator::Nand
        | BinaryOperator::Nor
        | BinaryOperator::Xor
        | BinaryOperator::Xnor => logical(s, t),
        BinaryOperator::Equal | BinaryOperator::NotEqual => equality(s, t),
        BinaryOperator::Less
        | BinaryOperator::LessEqual
        | BinaryOperator::Greater
        | BinaryOperator::GreaterEqual => order(s, t),
        BinaryOperator::Sll
        | BinaryOperator::Srl
        | BinaryOperator::Sla
        | BinaryOperator::Sra
        | BinaryOperator::Rol
        | BinaryOperator::Ror => shift(s, t),
        BinaryOperator::Add | BinaryOperator::Subtract => sum(s, t),
        BinaryOperator::Concat => concat(s, t),
        BinaryOperator::Multiply => product(s, t),
        BinaryOperator::Divide => quotient(s, t),
        BinaryOperator::Mod | BinaryOperator::Rem => remainder(s, t),
        BinaryOperator::Power => power(s, t),
    }
}
