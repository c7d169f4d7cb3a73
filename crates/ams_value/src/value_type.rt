//! The types of values.
ghost use Rattle.std.specs.Prelude.{◌≡◌};
ghost use Rattle.ams_value.specs.Types.{type_of};

use crate::val::Val;

/// The base type of a value.
#[derive(Clone, Copy, Debug, PartialEq, Eq)]
pub enum ValueType {
    Boolean,
    Bit,
    Integer,
    Real,
    Time,
    /// By the number of its declaration; number 0 is DOMAIN_TYPE.
    Enumeration(u16),
    /// BIT_VECTOR with its length.
    BitVector(u8),
}

impl ValueType {
    pub fn of(value: Val) -> ValueType
        ensures { result ≡ type_of value }
    {
        match value {
            Val::Bool(_) => ValueType::Boolean,
            Val::Bit(_) => ValueType::Bit,
            Val::Int(_) => ValueType::Integer,
            Val::Real(_) => ValueType::Real,
            Val::Time(_) => ValueType::Time,
            Val::Enum(number, _) => ValueType::Enumeration(number),
            Val::Bits(length, _) => ValueType::BitVector(length),
        }
    }
}
