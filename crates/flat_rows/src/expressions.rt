//! Constraints, and expressions that the design does not have.

use ams_value::{BinaryOperator, UnaryOperator, Val, ValueType};
use flat_expr::{Constraint, Direction, FlatExpr, Function, IndexRange, SignalName, Unknown};
use held_value::Held;
use std::alloc::{AllocError, Global};
use std::test::Fail;

const DOWN: IndexRange = IndexRange {
    left: 3,
    direction: Direction::Downto,
};

/// Element 2 of signal 3, of four bits.
fn element(alloc: Global) -> Result<FlatExpr, AllocError> {
    let bits = FlatExpr::Signal(SignalName::Signal(3), ValueType::BitVector(4));
    FlatExpr::index(alloc, bits, FlatExpr::Literal(Val::Int(2)), DOWN)
}

fn inverse(alloc: Global) -> Result<FlatExpr, AllocError> {
    FlatExpr::unary(alloc, UnaryOperator::Not, ValueType::Bit, element(alloc)?)
}

fn conjunction(alloc: Global) -> Result<FlatExpr, AllocError> {
    let left = Held::new(element(alloc)?);
    let right = inverse(alloc)?;
    FlatExpr::binary(
        alloc,
        BinaryOperator::And,
        ValueType::Bit,
        left.into_inner(),
        right,
    )
}

fn whole(alloc: Global) -> Result<FlatExpr, AllocError> {
    FlatExpr::call(
        alloc,
        Function::Integer,
        FlatExpr::Unknown(Unknown::Quantity(0)),
    )
}

fn is_bits(expression: &FlatExpr) -> bool {
    match expression {
        FlatExpr::Signal(signal, kind) => {
            *signal == SignalName::Signal(3) && *kind == ValueType::BitVector(4)
        }
        _ => false,
    }
}

fn is_two(expression: &FlatExpr) -> bool {
    match expression {
        FlatExpr::Literal(value) => *value == Val::Int(2),
        _ => false,
    }
}

fn is_element(expression: &FlatExpr) -> bool {
    match expression {
        FlatExpr::Index(vector, at, range) => {
            is_bits(vector.get()) && is_two(at.get()) && *range == DOWN
        }
        _ => false,
    }
}

fn is_inverse(expression: &FlatExpr) -> bool {
    match expression {
        FlatExpr::Unary(op, kind, operand) => {
            *op == UnaryOperator::Not && *kind == ValueType::Bit && is_element(operand.get())
        }
        _ => false,
    }
}

fn is_conjunction(expression: &FlatExpr) -> bool {
    match expression {
        FlatExpr::Binary(op, kind, left, right) => {
            *op == BinaryOperator::And
                && *kind == ValueType::Bit
                && is_element(left.get())
                && is_inverse(right.get())
        }
        _ => false,
    }
}

/// Its tree, its type and what it reads.
fn is_conjunction_of_bits(expression: &FlatExpr) -> bool {
    is_conjunction(expression)
        && expression.kind() == ValueType::Bit
        && expression.reads(SignalName::Signal(3))
        && !expression.reads(SignalName::Signal(0))
        && !expression.reads(SignalName::Domain)
}

fn is_whole(expression: &FlatExpr) -> bool {
    match expression {
        FlatExpr::Call(function, argument) => {
            *function == Function::Integer
                && match argument.get() {
                    FlatExpr::Unknown(unknown) => *unknown == Unknown::Quantity(0),
                    _ => false,
                }
        }
        _ => false,
    }
}

fn is_whole_number(expression: &FlatExpr) -> bool {
    is_whole(expression)
        && expression.kind() == ValueType::Integer
        && !expression.reads(SignalName::Signal(0))
}

#[test]
fn constraints_hold_of_their_values(rt: HostRuntime) -> Result<(), Fail> {
    let natural = Constraint::Integer(0, 7);
    assert!(rt; natural.holds(Val::Int(7)) && !natural.holds(Val::Int(8)));
    assert!(rt; Constraint::Whole.holds(Val::Int(-1)));
    Ok(())
}

#[test]
fn a_conjunction_of_bits_is_built(rt: HostRuntime) -> Result<(), Fail> {
    let both = conjunction(rt.alloc())?;
    let right = is_conjunction_of_bits(&both);
    drop(both);
    assert!(rt; right);
    Ok(())
}

#[test]
fn a_conversion_is_built(rt: HostRuntime) -> Result<(), Fail> {
    let number = whole(rt.alloc())?;
    let right = is_whole_number(&number);
    drop(number);
    assert!(rt; right);
    Ok(())
}
