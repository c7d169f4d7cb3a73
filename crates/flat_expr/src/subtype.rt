//! Subtypes.
ghost use Rattle.std.specs.Prelude.{◌≡◌};
ghost use Rattle.flat_expr.specs.Subtype.{lies_in};

use ams_value::Val;
use fix_core::Fix;

/// Which values of its base type a subtype has (IEEE 1076, 6.3).
#[derive(Clone, Copy, PartialEq, Eq)]
pub enum Constraint {
    /// All values of the base type.
    Whole,
    /// The integers from the first to the second; none where the first is greater.
    Integer(i32, i32),
    /// The numbers from the first to the second; none where the first is greater.
    Real(Fix, Fix),
}

impl Constraint {
    /// Whether a value of the base type belongs to the subtype.
    pub fn holds(self, value: Val) -> bool
        ensures { result ≡ lies_in self value }
    {
        match self {
            Constraint::Whole => true,
            Constraint::Integer(low, high) => match value {
                Val::Int(i) => low <= i && i <= high,
                _ => true,
            },
            Constraint::Real(low, high) => match value {
                Val::Real(r) => low.units() <= r.units() && r.units() <= high.units(),
                _ => true,
            },
        }
    }
}
