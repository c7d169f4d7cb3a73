//! The passes over the instructions: of their numbers, and of their slopes by an unknown.
ghost use Rattle.std.specs.Prelude.{◌≡◌, ◌<◌, ◌≤◌, length, IfOk};
ghost use Rattle.tape_code.specs.Steps.{HasNumbers, HasSlopes};

use crate::numbers::number_at;
use crate::slopes::slope_at;
use design_meaning::EvalFault;
use expr_eval::Values;
use fix_core::Fix;
use flat_expr::Unknown;
use tape_code::Instruction;

/// Writes what each instruction gives.
pub fn fill_numbers<V: Values>(
    code: &[Instruction],
    values: &V,
    numbers: &mut [Fix],
) -> Result<(), EvalFault>
    requires { length code.now ≤ length numbers.old }
    ensures { IfOk result (λ _. HasNumbers (V.readings values.now) code.now (length code.now) numbers.new) }
{
    for place in 0..code.len() {
        numbers[place] = number_at(code[place], numbers, place, values)?;
    }
    Ok(())
}

/// Writes the slope of what each instruction gives, by the numbers of all.
pub fn fill_slopes(
    unknown: Unknown,
    code: &[Instruction],
    numbers: &[Fix],
    slopes: &mut [Fix],
) -> Result<(), EvalFault>
    requires numbers { length code.now ≤ length numbers.now }
    requires slopes { length code.now ≤ length slopes.old }
    ensures { IfOk result (λ _. HasSlopes unknown code.now numbers.now (length code.now) slopes.new) }
{
    for place in 0..code.len() {
        slopes[place] = slope_at(unknown, code[place], numbers, slopes, place)?;
    }
    Ok(())
}
