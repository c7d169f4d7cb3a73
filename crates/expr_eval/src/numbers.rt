//! Numbers and faults of what an expression is made of, as those of the expression.
ghost use Rattle.std.specs.Prelude.{◌≡◌};
ghost use Rattle.fix_core.specs.Fixed.{ranged};
ghost use Rattle.ams_value.specs.Values.{units_of};
ghost use Rattle.design_meaning.specs.Faults.{of_number, of_operator, numeric, operated};
ghost use Rattle.design_meaning.specs.Value.{real};

use ams_value::{Val, ValFault};
use design_meaning::EvalFault;
use fix_core::{Fix, NumFault};

/// The fault of a number.
pub fn fault_of_number(fault: NumFault) -> EvalFault
    ensures { result ≡ of_number fault }
{
    match fault {
        NumFault::Overflow => EvalFault::Overflow,
        NumFault::DivideByZero => EvalFault::DivideByZero,
        NumFault::Domain => EvalFault::Domain,
    }
}

/// The fault of an operator.
pub fn fault_of_operator(fault: ValFault) -> EvalFault
    ensures { result ≡ of_operator fault }
{
    match fault {
        ValFault::Range => EvalFault::Range,
        ValFault::Overflow => EvalFault::Overflow,
        ValFault::DivideByZero => EvalFault::DivideByZero,
    }
}

/// A number, or its fault.
pub fn number(outcome: Result<Fix, NumFault>) -> Result<Fix, EvalFault>
    ensures { result ≡ numeric outcome }
{
    match outcome {
        Ok(number) => Ok(number),
        Err(fault) => Err(fault_of_number(fault)),
    }
}

/// A number as a value, or its fault.
pub fn real_value(outcome: Result<Fix, NumFault>) -> Result<Val, EvalFault>
    ensures { result ≡ real (numeric outcome) }
{
    match outcome {
        Ok(number) => Ok(Val::Real(number)),
        Err(fault) => Err(fault_of_number(fault)),
    }
}

/// A number that there is, as a value.
#[tactic(auto, using(crate::proofs::InRange::numbers))]
pub fn known_value(number: Fix) -> Result<Val, EvalFault>
    ensures { result ≡ real (numeric (ranged number)) }
{
    Ok(Val::Real(number))
}

/// An operator's value, or its fault.
pub fn operated_value(outcome: Result<Val, ValFault>) -> Result<Val, EvalFault>
    ensures { result ≡ operated outcome }
{
    match outcome {
        Ok(value) => Ok(value),
        Err(fault) => Err(fault_of_operator(fault)),
    }
}

/// The number that a REAL value is, and 0 of another one.
pub fn units(value: Val) -> Fix
    ensures { result ≡ units_of value }
{
    match value {
        Val::Real(number) => number,
        _ => Fix::exactly(0),
    }
}
