//! The residuals of the augmentation equations.
ghost use Rattle.std.specs.Prelude.{◌≡◌, ◌*◌, ◌^◌, ◌≤◌, ◌+ℤ◌, ◌*ℤ◌, pos, unsigned_abs};
ghost use Rattle.fix_core.specs.Units.{units_per_one, most_units};
ghost use Rattle.fix_core.specs.Rounding.{rnd};
ghost use Rattle.design_meaning.specs.Equations.{residual_of, given, euler, trapezoid};
ghost use Rattle.equation_values.specs.Reading.{readings_in};
ghost use Rattle.augmentation_rows.specs.Forms.{row_by, IsShortRow};

use crate::forms::DotForm;
use design_meaning::EvalFault;
use equation_values::EquationValues;
use expr_eval::{Values, number};
use fix_core::{Fix, MOST_UNITS, round_quotient};
use flat_expr::Unknown;

/// The units of 2.0.
const TWO: i128 = 2_000_000_000_000;

/// A product of a step and slopes, by 2.0, rounded.
#[tactic(auto, using(crate::proofs::Steps::small_rise))]
fn halved(product: i128) -> Fix
    requires { unsigned_abs product ≤ 2 * 10 ^ 36 }
    ensures { result ≡ rnd product (pos (2 * units_per_one)) }
{
    Fix::exactly(round_quotient(product, TWO))
}

/// Half a step times a sum of two slopes that is no number, rounded once.
#[tactic(auto, using(crate::proofs::Steps::small_product))]
fn wide_rise(step: i128, sum: i128) -> Fix
    requires step { unsigned_abs step ≤ 1000000000000 }
    requires sum { unsigned_abs sum ≤ 2 * most_units }
    ensures { result ≡ rnd (step *ℤ sum) (pos (2 * units_per_one)) }
{
    halved(step * sum)
}

/// Half a step times the sum of two slopes, rounded once.
#[tactic(auto, using(crate::proofs::Steps::small_sizes))]
fn rise(step: Fix, dot: Fix, rate: Fix) -> Fix
    requires { unsigned_abs step ≤ 1000000000000 }
    ensures { result ≡ rnd (step *ℤ (dot +ℤ rate)) (pos (2 * units_per_one)) }
{
    let sum = dot.units() + rate.units();
    if sum.unsigned_abs() <= MOST_UNITS {
        step.mul_over(Fix::exactly(sum), 2)
    } else {
        wide_rise(step.units(), sum)
    }
}

fn given_residual(
    unknown: Unknown,
    value: Fix,
    values: &EquationValues<'_>,
) -> Result<Fix, EvalFault>
    ensures { result ≡ residual_of (given unknown value) (readings_in values.now) }
{
    number(values.unknown(unknown).sub(value))
}

fn euler_residual(
    quantity: u32,
    dot: u32,
    start: Fix,
    step: u64,
    values: &EquationValues<'_>,
) -> Result<Fix, EvalFault>
    ensures { result ≡ residual_of (euler quantity dot start step) (readings_in values.now) }
{
    let slope = values.unknown(Unknown::Dot(dot));
    let gain = number(Fix::exactly(step as i128).mul(slope))?;
    let right = number(start.add(gain))?;
    number(values.unknown(Unknown::Quantity(quantity)).sub(right))
}

fn trapezoid_residual(
    quantity: u32,
    dot: u32,
    start: Fix,
    rate: Fix,
    step: u64,
    values: &EquationValues<'_>,
) -> Result<Fix, EvalFault>
    requires { step ≤ 1000000000000 }
    ensures { result ≡ residual_of (trapezoid quantity dot start rate step) (readings_in values.now) }
{
    let step = Fix::exactly(step as i128);
    let gain = rise(step, values.unknown(Unknown::Dot(dot)), rate);
    let right = number(start.add(gain))?;
    number(values.unknown(Unknown::Quantity(quantity)).sub(right))
}

/// The left side of an equation less the right one.
pub fn residual(form: &DotForm, values: &EquationValues<'_>) -> Result<Fix, EvalFault>
    requires { IsShortRow (row_by form.now) }
    ensures { result ≡ residual_of (row_by form.now) (readings_in values.now) }
{
    match form {
        DotForm::Given(unknown, value) => given_residual(*unknown, *value, values),
        DotForm::Euler(quantity, dot, start, step) => {
            euler_residual(*quantity, *dot, *start, *step, values)
        }
        DotForm::Trapezoid(quantity, dot, start, rate, step) => {
            trapezoid_residual(*quantity, *dot, *start, *rate, *step, values)
        }
    }
}
