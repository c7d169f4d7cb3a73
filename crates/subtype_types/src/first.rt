//! The leftmost value of a subtype (IEEE 1076, 5.2.1).
ghost use Rattle.std.specs.Prelude.{◌≡◌};
ghost use Rattle.elab_meaning.specs.Subtypes as spec;

use ams_value::{MOST_INTEGER, Val, ValueType};
use fix_core::{Fix, MOST_TICKS, MOST_UNITS};
use flat_expr::Constraint;
use name_scope::{Kind, Subtype, SubtypeConstraint};

fn first_integer(constraint: &SubtypeConstraint) -> i32
    ensures { result ≡ spec.first_integer constraint.now }
{
    match constraint {
        SubtypeConstraint::Range(Constraint::Integer(low, _)) => *low,
        _ => -(MOST_INTEGER as i32),
    }
}

fn first_real(constraint: &SubtypeConstraint) -> Fix
    ensures { result ≡ spec.first_real constraint.now }
{
    match constraint {
        SubtypeConstraint::Range(Constraint::Real(low, _)) => *low,
        _ => Fix::exactly(-(MOST_UNITS as i128)),
    }
}

fn first_of_type(constraint: &SubtypeConstraint, kind: ValueType) -> Val
    ensures { result ≡ spec.first_of_type constraint.now kind }
{
    match kind {
        ValueType::Boolean => Val::Bool(false),
        ValueType::Bit => Val::Bit(false),
        ValueType::Integer => Val::Int(first_integer(constraint)),
        ValueType::Real => Val::Real(first_real(constraint)),
        ValueType::Time => Val::Time(-(MOST_TICKS as i64)),
        ValueType::Enumeration(number) => Val::Enum(number, 0),
        ValueType::BitVector(length) => Val::Bits(length, 0),
    }
}

/// The leftmost value of a subtype; of a vector, each element's.
pub fn leftmost(subtype: &Subtype) -> Val
    ensures { result ≡ spec.leftmost subtype.now }
{
    match subtype.kind {
        Kind::Of(kind) => first_of_type(&subtype.constraint, kind),
        Kind::Vector => Val::Bits(0, 0),
    }
}
