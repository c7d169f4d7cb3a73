//! Expressions from words in prefix order: `q0`, `q1`, `q2`, `gain`, `count`, `now` in REAL and `tick` in TIME; `#2` is an
//! INTEGER, `2500` is the REAL 2.5, in thousandths, `@7` is a TIME of 7 ticks, and `b011` is a BIT_VECTOR; the operators and
//! functions stand before their operands, and `to 1` and `downto 3`, which index a vector, before the vector and the index.

use ams_value::{
    BinaryOperator, MOST_ELEMENTS, UnaryOperator, Val, ValueType, binary_type, unary_type,
};
use fix_core::Fix;
use flat_expr::{Direction, FlatExpr, Function, IndexRange, SignalName, Unknown};
use std::alloc::{AllocError, Global};
use std::str::SplitWhitespace;

/// The expression, or none where the words are no such expression.
type Built = Result<Option<FlatExpr>, AllocError>;

fn leaf(word: &str) -> Option<FlatExpr> {
    Some(match word {
        "q0" => FlatExpr::Unknown(Unknown::Quantity(0)),
        "q1" => FlatExpr::Unknown(Unknown::Quantity(1)),
        "q2" => FlatExpr::Unknown(Unknown::Quantity(2)),
        "gain" => FlatExpr::Signal(SignalName::Signal(0), ValueType::Real),
        "count" => FlatExpr::Signal(SignalName::Signal(1), ValueType::Integer),
        "now" => FlatExpr::NowReal,
        "tick" => FlatExpr::NowTime,
        _ => FlatExpr::Literal(literal(word)?),
    })
}

/// A number of so many thousandths.
pub fn thousandths(word: &str) -> Option<Fix> {
    let count = word.parse::<i32>().ok()?;
    Some(Fix::exactly(i128::from(count) * 1_000_000_000))
}

/// The bit vector of so many elements that is written so.
fn vector(digits: &str) -> Option<Val> {
    let length = u8::try_from(digits.len()).ok()?;
    if length > MOST_ELEMENTS {
        return None;
    }
    Some(Val::Bits(length, u64::from_str_radix(digits, 2).ok()?))
}

fn literal(word: &str) -> Option<Val> {
    if let Some(digits) = word.strip_prefix('#') {
        return Some(Val::Int(digits.parse::<i32>().ok()?));
    }
    if let Some(ticks) = word.strip_prefix('@') {
        return Some(Val::Time(ticks.parse::<i64>().ok()?));
    }
    if let Some(digits) = word.strip_prefix('b') {
        return vector(digits);
    }
    Some(Val::Real(thousandths(word)?))
}

fn unary(word: &str) -> Option<UnaryOperator> {
    match word {
        "plus" => Some(UnaryOperator::Plus),
        "neg" => Some(UnaryOperator::Minus),
        "abs" => Some(UnaryOperator::Abs),
        "not" => Some(UnaryOperator::Not),
        _ => None,
    }
}

fn binary(word: &str) -> Option<BinaryOperator> {
    match word {
        "+" => Some(BinaryOperator::Add),
        "-" => Some(BinaryOperator::Subtract),
        "*" => Some(BinaryOperator::Multiply),
        "/" => Some(BinaryOperator::Divide),
        "mod" => Some(BinaryOperator::Mod),
        "rem" => Some(BinaryOperator::Rem),
        "**" => Some(BinaryOperator::Power),
        "sll" => Some(BinaryOperator::Sll),
        "sra" => Some(BinaryOperator::Sra),
        "rol" => Some(BinaryOperator::Rol),
        "&" => Some(BinaryOperator::Concat),
        _ => truth(word),
    }
}

/// An operator whose result is a truth value.
fn truth(word: &str) -> Option<BinaryOperator> {
    match word {
        "=" => Some(BinaryOperator::Equal),
        "/=" => Some(BinaryOperator::NotEqual),
        "<" => Some(BinaryOperator::Less),
        "<=" => Some(BinaryOperator::LessEqual),
        ">" => Some(BinaryOperator::Greater),
        ">=" => Some(BinaryOperator::GreaterEqual),
        "and" => Some(BinaryOperator::And),
        "or" => Some(BinaryOperator::Or),
        "nand" => Some(BinaryOperator::Nand),
        "nor" => Some(BinaryOperator::Nor),
        "xor" => Some(BinaryOperator::Xor),
        "xnor" => Some(BinaryOperator::Xnor),
        _ => None,
    }
}

fn function(word: &str) -> Option<Function> {
    match word {
        "real" => Some(Function::Real),
        "integer" => Some(Function::Integer),
        "exp" => Some(Function::Exp),
        "sin" => Some(Function::Sin),
        "cos" => Some(Function::Cos),
        "sqrt" => Some(Function::Sqrt),
        _ => None,
    }
}

fn direction(word: &str) -> Option<Direction> {
    match word {
        "to" => Some(Direction::To),
        "downto" => Some(Direction::Downto),
        _ => None,
    }
}

/// An operator with an operand, of the type that its table has; of REAL where it has none, which no row's type is.
fn unary_of(alloc: Global, op: UnaryOperator, operand: FlatExpr) -> Built {
    let kind = unary_type(op, operand.kind()).unwrap_or(ValueType::Real);
    Ok(Some(FlatExpr::unary(alloc, op, kind, operand)?))
}

fn binary_of(alloc: Global, op: BinaryOperator, left: FlatExpr, right: FlatExpr) -> Built {
    let kind = binary_type(op, left.kind(), right.kind()).unwrap_or(ValueType::Real);
    Ok(Some(FlatExpr::binary(alloc, op, kind, left, right)?))
}

fn left_index(words: &mut SplitWhitespace<'_>) -> Option<u8> {
    words.next()?.parse::<u8>().ok()
}

/// The expression that the words begin with, of at most so many levels.
pub fn build(alloc: Global, words: &mut SplitWhitespace<'_>, levels: u8) -> Built {
    let Some(word) = words.next() else {
        return Ok(None);
    };
    if levels == 0 {
        return Ok(None);
    }
    if let Some(op) = unary(word) {
        let Some(operand) = build(alloc, words, levels - 1)? else {
            return Ok(None);
        };
        return unary_of(alloc, op, operand);
    }
    if let Some(op) = binary(word) {
        let Some(left) = build(alloc, words, levels - 1)? else {
            return Ok(None);
        };
        let Some(right) = build(alloc, words, levels - 1)? else {
            return Ok(None);
        };
        return binary_of(alloc, op, left, right);
    }
    if let Some(name) = function(word) {
        let Some(argument) = build(alloc, words, levels - 1)? else {
            return Ok(None);
        };
        return Ok(Some(FlatExpr::call(alloc, name, argument)?));
    }
    if let Some(direction) = direction(word) {
        let Some(left) = left_index(words) else {
            return Ok(None);
        };
        let Some(vector) = build(alloc, words, levels - 1)? else {
            return Ok(None);
        };
        let Some(at) = build(alloc, words, levels - 1)? else {
            return Ok(None);
        };
        return Ok(Some(FlatExpr::index(alloc, vector, at, IndexRange { left, direction })?));
    }
    Ok(leaf(word))
}
