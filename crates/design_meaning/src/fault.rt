//! Why an expression has no value.
ghost use Rattle.std.specs.Prelude.{◌≡◌};
ghost use Rattle.design_meaning.specs.Faults.{code_of};

use message_codes::{DOMAIN_FAULT, RANGE, VALUE_DIVIDE_BY_ZERO, VALUE_OVERFLOW};

/// The fault of an evaluation.
#[derive(Clone, Copy, Debug, PartialEq, Eq)]
pub enum EvalFault {
    /// A function is not defined at its argument.
    Domain,
    /// A value is out of the range of a conversion, an exponent or an index.
    Range,
    /// A result is out of its type.
    Overflow,
    DivideByZero,
}

impl EvalFault {
    /// The number of the fault in refusals.
    pub fn code(self) -> u8
        ensures { result ≡ code_of self }
    {
        match self {
            EvalFault::Domain => DOMAIN_FAULT,
            EvalFault::Range => RANGE,
            EvalFault::Overflow => VALUE_OVERFLOW,
            EvalFault::DivideByZero => VALUE_DIVIDE_BY_ZERO,
        }
    }
}
