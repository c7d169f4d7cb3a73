//! A value of one of the types of the profile.

ghost use Rattle.std.specs.Prelude.{◌≡◌, ◌<◌, ◌&&◌, ◌^◌, true, nat_le, nat_lt, get_or};
ghost use Rattle.ams_value.specs.Ranges.{most_elements};
ghost use Rattle.ams_value.specs.Types.{IsValue, is_in_range};

use fix_core::{Fix, MOST_TICKS, MOST_UNITS};

/// INTEGER runs from the negative of this number to it.
pub const MOST_INTEGER: u32 = 2_147_483_647;

/// The greatest length of a BIT_VECTOR.
pub const MOST_ELEMENTS: u8 = 64;

/// A value, with the type that it is of.
#[derive(Clone, Copy, PartialEq, Eq)]
pub enum Val {
    /// BOOLEAN (IEEE 1076-2008, 16.3).
    Bool(bool),
    /// BIT: `true` is `'1'` and `false` is `'0'` (IEEE 1076-2008, 16.3).
    Bit(bool),
    /// INTEGER and its subtypes, of magnitude at most `MOST_INTEGER`.
    Int(i32),
    /// REAL and its subtypes.
    Real(Fix),
    /// TIME in ticks of 1 ps, of magnitude at most `MOST_TICKS`.
    Time(i64),
    /// An enumeration value: the number of its type, and its position among that type's literals from 0 on.
    Enum(u16, u16),
    /// BIT_VECTOR: its length, at most `MOST_ELEMENTS`, and its content. The last (rightmost) element is the lowest bit, and the
    /// bits from the length on are 0.
    Bits(u8, u64),
}

impl Val {
    /// What the value holds lies in the range of its type, where these are the numbers of literals of the enumeration
    /// types, by type number.
    pub fn is_in_range(&self, literals: &[u32]) -> bool
        ensures test { result ≡ is_in_range literals.now self.now }
        ensures value { result ≡ true → IsValue self.now }
    {
        match self {
            Val::Bool(_) | Val::Bit(_) => true,
            Val::Int(i) => i.unsigned_abs() <= MOST_INTEGER,
            Val::Real(number) => number.magnitude() <= MOST_UNITS,
            Val::Time(t) => t.unsigned_abs() <= MOST_TICKS,
            Val::Enum(number, position) => is_literal(*number, *position, literals),
            Val::Bits(length, content) => is_vector(*length, *content),
        }
    }
}

/// The enumeration type of this number has a literal at this position.
fn is_literal(number: u16, position: u16, literals: &[u32]) -> bool
    ensures { result ≡ nat_lt position (get_or literals.now number 0) }
{
    match literals.get(usize::from(number)) {
        Some(count) => u32::from(position) < *count,
        None => false,
    }
}

/// A content of so many elements.
#[tactic(auto, using(crate::proofs::Vectors::ranges))]
fn is_vector(length: u8, content: u64) -> bool
    ensures { result ≡ (nat_le length most_elements && nat_lt content (2 ^ length)) }
{
    if length < MOST_ELEMENTS {
        content < 1 << length
    } else {
        length == MOST_ELEMENTS
    }
}
