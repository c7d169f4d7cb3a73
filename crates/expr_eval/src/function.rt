//! The predefined functions.
ghost use Rattle.std.specs.Prelude.{◌≡◌};
ghost use Rattle.design_meaning.specs.Value.{called};

use crate::numbers::{fault_of_operator, real_value, units};
use ams_value::{Val, integer_from_real, real_from_integer};
use design_meaning::EvalFault;
use flat_expr::Function;
use math_fix::{cos, exp, sin, sqrt};

/// What a function gives of a value.
pub fn call(function: Function, argument: &Val) -> Result<Val, EvalFault>
    ensures { result ≡ called function argument.now }
{
    match function {
        Function::Real => real(*argument),
        Function::Integer => integer(*argument),
        Function::Exp => real_value(exp(units(*argument))),
        Function::Sin => Ok(Val::Real(sin(units(*argument)))),
        Function::Cos => Ok(Val::Real(cos(units(*argument)))),
        Function::Sqrt => real_value(sqrt(units(*argument))),
    }
}

fn real(argument: Val) -> Result<Val, EvalFault>
    ensures { result ≡ called Function.Real argument }
{
    match argument {
        Val::Int(i) => Ok(Val::Real(real_from_integer(i))),
        _ => Ok(argument),
    }
}

fn integer(argument: Val) -> Result<Val, EvalFault>
    ensures { result ≡ called Function.Integer argument }
{
    match argument {
        Val::Real(number) => match integer_from_real(number) {
            Ok(i) => Ok(Val::Int(i)),
            Err(fault) => Err(fault_of_operator(fault)),
        },
        _ => Ok(argument),
    }
}
