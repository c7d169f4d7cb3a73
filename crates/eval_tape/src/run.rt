//! Runs of the instructions that give no fault.
ghost use Rattle.std.specs.Prelude.{◌≡◌, ◌≤◌, ◌-◌, length, pos, get_or, None, IfOk};
ghost use Rattle.tape_code.specs.Steps.{HasNumbers};
ghost use Rattle.eval_tape.specs.Tape.{IsValue, IsSlope, AreSlopes, AreResults};

use crate::numbers::{Outcome, nothing};
use crate::passes::{fill_numbers, fill_slopes};
use design_meaning::EvalFault;
use expr_eval::Values;
use fix_core::Fix;
use flat_expr::Unknown;
use tape_code::Instruction;

/// The last of so many numbers.
fn last(numbers: &[Fix], count: usize) -> Fix
    ensures { result ≡ get_or numbers.now (count - 1) (pos 0) }
{
    match numbers.get(count.saturating_sub(1)) {
        Some(number) => *number,
        None => nothing(),
    }
}

/// The value, with the numbers of all instructions.
pub fn run_value<V: Values>(code: &[Instruction], values: &V, numbers: &mut [Fix]) -> Outcome
    requires { length code.now ≤ length numbers.old }
    ensures numbers { IfOk result (λ _. HasNumbers (V.readings values.now) code.now (length code.now) numbers.new) }
    ensures value { IfOk result (λ v. IsValue (V.readings values.now) code.now v) }
{
    fill_numbers(code, values, numbers)?;
    Ok(last(numbers, code.len()))
}

/// The slope by an unknown, by the numbers of all instructions: the constant one where there is one.
fn run_slope(
    unknown: Unknown,
    constant: Option<Fix>,
    code: &[Instruction],
    numbers: &[Fix],
    slopes: &mut [Fix],
) -> Outcome
    requires numbers { length code.now ≤ length numbers.now }
    requires slopes { length code.now ≤ length slopes.old }
    ensures { IfOk result (λ z. IsSlope unknown constant code.now numbers.now z) }
{
    if let Some(slope) = constant {
        return Ok(slope);
    }
    fill_slopes(unknown, code, numbers, slopes)?;
    Ok(last(slopes, code.len()))
}

/// The constant slope at a place.
fn constant_at(constants: &[Option<Fix>], i: usize) -> Option<Fix>
    ensures { result ≡ get_or constants.now i None }
{
    match constants.get(i) {
        Some(constant) => *constant,
        None => None,
    }
}

/// Writes the slope by each unknown.
fn write_slopes(
    unknowns: &[Unknown],
    constants: &[Option<Fix>],
    code: &[Instruction],
    numbers: &[Fix],
    slopes: &mut [Fix],
    out: &mut [Fix],
) -> Result<(), EvalFault>
    requires numbers { length code.now ≤ length numbers.now }
    requires slopes { length code.now ≤ length slopes.old }
    requires places { length out.old ≡ length unknowns.now }
    ensures { IfOk result (λ _. AreSlopes unknowns.now constants.now (length unknowns.now) code.now numbers.now out.new) }
{
    for i in 0..unknowns.len() {
        let constant = constant_at(constants, i);
        out[i] = run_slope(unknowns[i], constant, code, numbers, slopes)?;
    }
    Ok(())
}

/// The value, and the slopes in `out`.
pub fn run_slopes<V: Values>(
    unknowns: &[Unknown],
    constants: &[Option<Fix>],
    code: &[Instruction],
    values: &V,
    numbers: &mut [Fix],
    slopes: &mut [Fix],
    out: &mut [Fix],
) -> Outcome
    requires numbers { length code.now ≤ length numbers.old }
    requires slopes { length code.now ≤ length slopes.old }
    requires places { length out.old ≡ length unknowns.now }
    ensures { IfOk result (λ v. AreResults (V.readings values.now) unknowns.now constants.now code.now v out.new) }
{
    let value = run_value(code, values, numbers)?;
    write_slopes(unknowns, constants, code, numbers, slopes, out)?;
    Ok(value)
}
