//! Comparisons.
ghost use Rattle.std.specs.Prelude.{◌≡◌};
ghost use Rattle.ams_value.specs.Values.{equals, precedes};

use crate::val::Val;

/// The two values are equal.
#[tactic(auto, unfolding(crate::specs::Values::equals))]
pub fn equal(a: Val, b: Val) -> bool
    ensures { result ≡ equals a b }
{
    match a {
        Val::Bool(a) => matches!(b, Val::Bool(b) if a == b),
        Val::Bit(a) => matches!(b, Val::Bit(b) if a == b),
        Val::Int(a) => matches!(b, Val::Int(b) if a == b),
        Val::Real(a) => matches!(b, Val::Real(b) if a.units() == b.units()),
        Val::Time(a) => matches!(b, Val::Time(b) if a == b),
        Val::Enum(s, a) => matches!(b, Val::Enum(t, b) if s == t && a == b),
        Val::Bits(m, a) => matches!(b, Val::Bits(n, b) if m == n && a == b),
    }
}

/// The first value stands before the second in the order of their type.
#[tactic(auto, unfolding(crate::specs::Values::precedes))]
pub fn less(a: Val, b: Val) -> bool
    ensures { result ≡ precedes a b }
{
    match a {
        Val::Bool(a) => matches!(b, Val::Bool(b) if !a && b),
        Val::Bit(a) => matches!(b, Val::Bit(b) if !a && b),
        Val::Int(a) => matches!(b, Val::Int(b) if a < b),
        Val::Real(a) => matches!(b, Val::Real(b) if a.units() < b.units()),
        Val::Time(a) => matches!(b, Val::Time(b) if a < b),
        Val::Enum(_, a) => matches!(b, Val::Enum(_, b) if a < b),
        Val::Bits(_, _) => false,
    }
}
