//! The slope of what an instruction gives.
ghost use Rattle.std.specs.Prelude.{◌≡◌, ◌<◌, ◌*ℤ◌, length, pos, if◌then◌else◌, Ok};
ghost use Rattle.fix_core.specs.Units.{one};
ghost use Rattle.ams_value.specs.declared.val.Val.TheVariants as val;
ghost use Rattle.design_meaning.specs.Value.{same_unknown, power_slope as power_slope_of};
ghost use Rattle.tape_code.specs.Steps.{earlier as earlier_of, function_slope as function_slope_of, operator_slope as operator_slope_of, slope_step};

use crate::numbers::{Outcome, earlier, nothing};
use ams_value::real_power;
use expr_eval::number;
use fix_core::{Fix, UNITS_PER_ONE};
use flat_expr::Unknown;
use math_fix::{cos, sin};
use tape_code::{Instruction, RealFunction, RealOperator};

/// A whole number as a REAL one.
fn whole(n: u32) -> Fix
    ensures { result ≡ pos n *ℤ one }
{
    Fix::exactly(i128::from(n) * UNITS_PER_ONE as i128)
}

/// The slope of an unknown by an unknown.
fn unknown_slope(of: Unknown, by: Unknown) -> Fix
    ensures { result ≡ (if same_unknown of by then one else pos 0) }
{
    if of == by { whole(1) } else { nothing() }
}

fn absolute_slope(x: Fix, slope: Fix) -> Fix
    ensures { Ok result ≡ function_slope_of RealFunction.Absolute x x slope }
{
    if x.units() < 0 { slope.neg() } else { slope }
}

fn cos_slope(x: Fix, slope: Fix) -> Outcome
    ensures { result ≡ function_slope_of RealFunction.Cos x x slope }
{
    Ok(number(sin(x).mul(slope))?.neg())
}

fn sqrt_slope(root: Fix, slope: Fix) -> Outcome
    ensures { result ≡ function_slope_of RealFunction.Sqrt root root slope }
{
    let twice = number(whole(2).mul(root))?;
    number(slope.div(twice))
}

/// Of a function with this value of a number with this slope.
fn function_slope(function: RealFunction, value: Fix, x: Fix, slope: Fix) -> Outcome
    ensures { result ≡ function_slope_of function value x slope }
{
    match function {
        RealFunction::Plus => Ok(slope),
        RealFunction::Minus => Ok(slope.neg()),
        RealFunction::Absolute => Ok(absolute_slope(x, slope)),
        RealFunction::Exp => number(value.mul(slope)),
        RealFunction::Sin => number(cos(x).mul(slope)),
        RealFunction::Cos => cos_slope(x, slope),
        RealFunction::Sqrt => sqrt_slope(value, slope),
    }
}

/// A number and its slope.
#[derive(Clone, Copy)]
struct Sloped {
    number: Fix,
    slope: Fix,
}

fn product_slope(left: Sloped, right: Sloped) -> Outcome
    ensures { result ≡ operator_slope_of RealOperator.Multiply left.number left.number left.slope right.number right.slope }
{
    let first = number(left.slope.mul(right.number))?;
    let second = number(left.number.mul(right.slope))?;
    number(first.add(second))
}

fn quotient_slope(value: Fix, left: Sloped, right: Sloped) -> Outcome
    ensures { result ≡ operator_slope_of RealOperator.Divide value left.number left.slope right.number right.slope }
{
    let loss = number(value.mul(right.slope))?;
    let top = number(left.slope.sub(loss))?;
    number(top.div(right.number))
}

/// Of an operator with this value.
fn operator_slope(operator: RealOperator, value: Fix, left: Sloped, right: Sloped) -> Outcome
    ensures { result ≡ operator_slope_of operator value left.number left.slope right.number right.slope }
{
    match operator {
        RealOperator::Add => number(left.slope.add(right.slope)),
        RealOperator::Subtract => number(left.slope.sub(right.slope)),
        RealOperator::Multiply => product_slope(left, right),
        RealOperator::Divide => quotient_slope(value, left, right),
    }
}

/// Of a number to a power.
#[tactic(auto, using(crate::proofs::Powers::positive))]
fn power_slope(base: Sloped, exponent: u32) -> Outcome
    ensures { result ≡ power_slope_of (Ok base.number) (Ok base.slope) (val.Int (pos exponent)) }
{
    if exponent == 0 {
        return Ok(nothing());
    }
    let lower = number(real_power(base.number, exponent - 1))?;
    let factor = number(whole(exponent).mul(lower))?;
    number(factor.mul(base.slope))
}

/// The number and the slope before a place with so many others between.
fn sloped_before(numbers: &[Fix], slopes: &[Fix], place: usize, skipped: usize) -> Sloped
    requires numbers { place < length numbers.now }
    requires slopes { place < length slopes.now }
    ensures number { result.number ≡ earlier_of numbers.now place skipped }
    ensures slope { result.slope ≡ earlier_of slopes.now place skipped }
{
    Sloped {
        number: earlier(numbers, place, skipped),
        slope: earlier(slopes, place, skipped),
    }
}

/// The slope of what the instruction at a place gives, by all numbers and by the slopes before it.
pub fn slope_at(
    unknown: Unknown,
    instruction: Instruction,
    numbers: &[Fix],
    slopes: &[Fix],
    place: usize,
) -> Outcome
    requires numbers { place < length numbers.now }
    requires slopes { place < length slopes.now }
    ensures { result ≡ slope_step unknown instruction numbers.now slopes.now place }
{
    match instruction {
        Instruction::Unknown(other) => Ok(unknown_slope(other, unknown)),
        Instruction::Function(function) => {
            let operand = sloped_before(numbers, slopes, place, 0);
            function_slope(function, numbers[place], operand.number, operand.slope)
        }
        Instruction::Operator(operator, right) => {
            let left = sloped_before(numbers, slopes, place, right);
            let right = sloped_before(numbers, slopes, place, 0);
            operator_slope(operator, numbers[place], left, right)
        }
        Instruction::Power(exponent) => {
            power_slope(sloped_before(numbers, slopes, place, 0), exponent)
        }
        _ => Ok(nothing()),
    }
}
