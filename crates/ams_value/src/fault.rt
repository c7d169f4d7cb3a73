//! Why an operator has no result.
ghost use Rattle.std.specs.Prelude.{◌≡◌};
ghost use Rattle.ams_value.specs.Values.{code_of};

/// Why an operator has no result.
#[derive(Clone, Copy, Debug, PartialEq, Eq)]
pub enum ValFault {
    /// A value is outside what is asked of it, as an exponent.
    Range,
    /// The result is outside its type.
    Overflow,
    /// The divisor is 0.
    DivideByZero,
}

impl ValFault {
    /// The number of the fault's message.
    pub fn code(self) -> u8
        ensures { result ≡ code_of self }
    {
        match self {
            ValFault::Range => message_codes::RANGE,
            ValFault::Overflow => message_codes::VALUE_OVERFLOW,
            ValFault::DivideByZero => message_codes::VALUE_DIVIDE_BY_ZERO,
        }
    }
}
