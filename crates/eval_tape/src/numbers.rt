//! The number that an instruction gives.
ghost use Rattle.std.specs.Prelude.{◌≡◌, ◌≤◌, length, pos};
ghost use Rattle.fix_core.specs.Fixed.{ranged};
ghost use Rattle.design_meaning.specs.Faults.{numeric};
ghost use Rattle.tape_code.specs.Steps.{earlier as earlier_of, real_number as real_number_of, function_number as function_number_of, operator_number as operator_number_of, number_step};

use ams_value::{Val, real_power};
use design_meaning::EvalFault;
use expr_eval::{Values, number};
use fix_core::Fix;
use math_fix::{cos, exp, sin, sqrt};
use tape_code::{Instruction, RealFunction, RealOperator};

/// A number, as a value or a slope, or its fault.
pub type Outcome = Result<Fix, EvalFault>;

pub fn nothing() -> Fix
    ensures { result ≡ pos 0 }
{
    Fix::exactly(0)
}

/// The number before a place with so many others between, and 0 where there is none.
pub fn earlier(numbers: &[Fix], place: usize, skipped: usize) -> Fix
    requires { place ≤ length numbers.now }
    ensures { result ≡ earlier_of numbers.now place skipped }
{
    if skipped < place {
        numbers[place - 1 - skipped]
    } else {
        nothing()
    }
}

fn real_number(value: Val) -> Outcome
    ensures { result ≡ real_number_of value }
{
    match value {
        Val::Real(number) => Ok(number),
        _ => Err(EvalFault::Range),
    }
}

/// A number that there is.
#[tactic(auto, using(crate::proofs::Ranged::numbers))]
pub fn known_number(number: Fix) -> Outcome
    ensures { result ≡ numeric (ranged number) }
{
    Ok(number)
}

fn function_number(function: RealFunction, x: Fix) -> Outcome
    ensures { result ≡ function_number_of function x }
{
    match function {
        RealFunction::Plus => Ok(x),
        RealFunction::Minus => Ok(x.neg()),
        RealFunction::Absolute => Ok(x.abs()),
        RealFunction::Exp => number(exp(x)),
        RealFunction::Sin => Ok(sin(x)),
        RealFunction::Cos => Ok(cos(x)),
        RealFunction::Sqrt => number(sqrt(x)),
    }
}

pub fn operator_number(operator: RealOperator, x: Fix, y: Fix) -> Outcome
    ensures { result ≡ operator_number_of operator x y }
{
    match operator {
        RealOperator::Add => number(x.add(y)),
        RealOperator::Subtract => number(x.sub(y)),
        RealOperator::Multiply => number(x.mul(y)),
        RealOperator::Divide => number(x.div(y)),
    }
}

/// What the instruction at a place gives, by the numbers before it.
pub fn number_at<V: Values>(
    instruction: Instruction,
    numbers: &[Fix],
    place: usize,
    values: &V,
) -> Outcome
    requires { place ≤ length numbers.now }
    ensures { result ≡ number_step (V.readings values.now) instruction numbers.now place }
{
    match instruction {
        Instruction::Literal(number) => Ok(number),
        Instruction::Signal(name) => real_number(values.signal(name)),
        Instruction::Unknown(unknown) => known_number(values.unknown(unknown)),
        Instruction::Now => Ok(Fix::exactly(i128::from(values.time().get()))),
        Instruction::Function(function) => function_number(function, earlier(numbers, place, 0)),
        Instruction::Operator(operator, right) => {
            let left = earlier(numbers, place, right);
            operator_number(operator, left, earlier(numbers, place, 0))
        }
        Instruction::Power(exponent) => number(real_power(earlier(numbers, place, 0), exponent)),
        Instruction::Other => Err(EvalFault::Range),
    }
}
