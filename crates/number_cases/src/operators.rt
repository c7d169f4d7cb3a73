//! Operators on values, by the words that stand for them.

use crate::value::value;
use ams_value::{
    BinaryOperator, UnaryOperator, Val, ValFault, ValueType, binary, binary_type,
    integer_from_real, real_from_integer, unary, unary_type,
};

/// How many literals each enumeration type of the table has.
const LITERALS: [u32; 8] = [65_536; 8];

/// What an operator gives; none where the words are no operator with operands of its types.
pub fn apply(name: &str, left: &str, right: &str) -> Option<Result<Val, ValFault>> {
    let a = value(left)?;
    if name == "convert" {
        return convert(a);
    }
    if let Some(op) = unary_operator(name) {
        return apply_unary(op, a);
    }
    let op = binary_operator(name)?;
    apply_binary(op, a, value(right)?)
}

fn apply_unary(op: UnaryOperator, a: Val) -> Option<Result<Val, ValFault>> {
    let known = unary_type(op, ValueType::of(a)).is_some();
    if known && a.is_in_range(&LITERALS) {
        Some(unary(op, a))
    } else {
        None
    }
}

fn apply_binary(op: BinaryOperator, a: Val, b: Val) -> Option<Result<Val, ValFault>> {
    let known = binary_type(op, ValueType::of(a), ValueType::of(b)).is_some();
    if known && a.is_in_range(&LITERALS) && b.is_in_range(&LITERALS) {
        Some(binary(op, a, b))
    } else {
        None
    }
}

/// `integer(r)` and `real(i)`.
fn convert(a: Val) -> Option<Result<Val, ValFault>> {
    match a {
        Val::Int(i) => Some(Ok(Val::Real(real_from_integer(i)))),
        Val::Real(r) => Some(match integer_from_real(r) {
            Ok(i) => Ok(Val::Int(i)),
            Err(fault) => Err(fault),
        }),
        _ => None,
    }
}

fn unary_operator(name: &str) -> Option<UnaryOperator> {
    match name {
        "plus" => Some(UnaryOperator::Plus),
        "minus" => Some(UnaryOperator::Minus),
        "abs" => Some(UnaryOperator::Abs),
        "not" => Some(UnaryOperator::Not),
        _ => None,
    }
}

fn binary_operator(name: &str) -> Option<BinaryOperator> {
    logical_operator(name)
        .or(arithmetic_operator(name))
        .or(shift_operator(name))
}

fn logical_operator(name: &str) -> Option<BinaryOperator> {
    match name {
        "and" => Some(BinaryOperator::And),
        "or" => Some(BinaryOperator::Or),
        "nand" => Some(BinaryOperator::Nand),
        "nor" => Some(BinaryOperator::Nor),
        "xor" => Some(BinaryOperator::Xor),
        "xnor" => Some(BinaryOperator::Xnor),
        "=" => Some(BinaryOperator::Equal),
        "/=" => Some(BinaryOperator::NotEqual),
        "<" => Some(BinaryOperator::Less),
        "<=" => Some(BinaryOperator::LessEqual),
        ">" => Some(BinaryOperator::Greater),
        ">=" => Some(BinaryOperator::GreaterEqual),
        _ => None,
    }
}

fn shift_operator(name: &str) -> Option<BinaryOperator> {
    match name {
        "sll" => Some(BinaryOperator::Sll),
        "srl" => Some(BinaryOperator::Srl),
        "sla" => Some(BinaryOperator::Sla),
        "sra" => Some(BinaryOperator::Sra),
        "rol" => Some(BinaryOperator::Rol),
        "ror" => Some(BinaryOperator::Ror),
        "&" => Some(BinaryOperator::Concat),
        _ => None,
    }
}

fn arithmetic_operator(name: &str) -> Option<BinaryOperator> {
    match name {
        "+" => Some(BinaryOperator::Add),
        "-" => Some(BinaryOperator::Subtract),
        "*" => Some(BinaryOperator::Multiply),
        "/" => Some(BinaryOperator::Divide),
        "mod" => Some(BinaryOperator::Mod),
        "rem" => Some(BinaryOperator::Rem),
        "**" => Some(BinaryOperator::Power),
        _ => None,
    }
}
