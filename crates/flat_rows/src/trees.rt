//! Whether the trees of the design are those that were built.

use ams_value::{BinaryOperator, Val, ValueType};
use fix_core::Fix;
use flat_design::Equation;
use flat_expr::{
    Constraint, DelayMechanism, FlatExpr, SignalName, Statement, Unknown, WaveElement,
};

fn is_literal(expression: &FlatExpr, want: Val) -> bool {
    match expression {
        FlatExpr::Literal(value) => *value == want,
        _ => false,
    }
}

fn is_unknown(expression: &FlatExpr, want: Unknown) -> bool {
    match expression {
        FlatExpr::Unknown(unknown) => *unknown == want,
        _ => false,
    }
}

fn is_level(expression: &FlatExpr) -> bool {
    match expression {
        FlatExpr::Signal(signal, kind) => {
            *signal == SignalName::Signal(0) && *kind == ValueType::Real
        }
        _ => false,
    }
}

/// Whether it is the product of a constant, in units, and an unknown.
fn is_product(expression: &FlatExpr, units: i64, unknown: Unknown) -> bool {
    match expression {
        FlatExpr::Binary(op, kind, left, right) => {
            *op == BinaryOperator::Multiply
                && *kind == ValueType::Real
                && is_literal(left.get(), Val::Real(Fix::exactly(units as i128)))
                && is_unknown(right.get(), unknown)
        }
        _ => false,
    }
}

pub fn is_source(equation: &Equation) -> bool {
    match equation {
        Equation::Pair(pair) => {
            is_unknown(&pair.left, Unknown::Quantity(0)) && is_level(&pair.right)
        }
        Equation::Choice(_) => false,
    }
}

/// Whether an equation says that a quantity is so many units by an unknown.
pub fn is_scaled(equation: &Equation, quantity: u32, units: i64, unknown: Unknown) -> bool {
    match equation {
        Equation::Pair(pair) => {
            is_unknown(&pair.left, Unknown::Quantity(quantity))
                && is_product(&pair.right, units, unknown)
        }
        Equation::Choice(_) => false,
    }
}

fn is_held_variable(element: &WaveElement) -> bool {
    match element.value {
        FlatExpr::Variable(number, kind) => {
            number == 0 && kind == ValueType::Real && element.delay.is_none()
        }
        _ => false,
    }
}

fn is_inertial(mechanism: &DelayMechanism) -> bool {
    match mechanism {
        DelayMechanism::Inertial(limit) => limit.is_none(),
        DelayMechanism::Transport => false,
    }
}

pub fn is_assignment(statement: &Statement) -> bool {
    match statement {
        Statement::SignalAssignment(signal, constraint, mechanism, wave) => {
            *signal == 1
                && *constraint == Constraint::Whole
                && is_inertial(mechanism)
                && match wave.as_slice() {
                    [element] => is_held_variable(element),
                    _ => false,
                }
        }
        _ => false,
    }
}

fn is_microsecond(timeout: &Option<FlatExpr>) -> bool {
    match timeout {
        Some(time) => is_literal(time, Val::Time(1_000_000)),
        None => false,
    }
}

pub fn is_wait(statement: &Statement) -> bool {
    match statement {
        Statement::Wait(number, signals, condition, timeout) => {
            *number == 0 && signals.is_empty() && condition.is_none() && is_microsecond(timeout)
        }
        _ => false,
    }
}
