//! The value of a short tape, which takes no room for numbers.
ghost use Rattle.std.specs.Prelude.{[], ◌∷◌, IfSome};
ghost use Rattle.tape_code.specs.declared.instruction.Instruction.TheVariants as i;
ghost use Rattle.tape_code.specs.declared.instruction.RealOperator.TheVariants as real_operator;
ghost use Rattle.eval_tape.specs.Tape.{IsValue};

use crate::numbers::{known_number, number_at, operator_number};
use expr_eval::Values;
use fix_core::Fix;
use flat_expr::Unknown;
use tape_code::{Instruction, RealOperator};

/// Of one instruction alone.
fn alone<V: Values>(instruction: Instruction, values: &V) -> Option<Fix>
    ensures { IfSome result (λ v. IsValue (V.readings values.now) (instruction ∷ []) v) }
{
    match number_at(instruction, &[], 0, values) {
        Ok(number) => Some(number),
        Err(_) => None,
    }
}

/// Of a number times an unknown.
fn multiple<V: Values>(factor: Fix, unknown: Unknown, values: &V) -> Option<Fix>
    ensures { IfSome result (λ v. IsValue (V.readings values.now) (i.Literal factor ∷ i.Unknown unknown ∷ i.Operator real_operator.Multiply 1 ∷ []) v) }
{
    match known_number(values.unknown(unknown)) {
        Ok(number) => match operator_number(RealOperator::Multiply, factor, number) {
            Ok(product) => Some(product),
            Err(_) => None,
        },
        Err(_) => None,
    }
}

/// Of three instructions, where they multiply a number and an unknown.
fn of_three<V: Values>(
    first: Instruction,
    second: Instruction,
    third: Instruction,
    values: &V,
) -> Option<Fix>
    ensures { IfSome result (λ v. IsValue (V.readings values.now) (first ∷ second ∷ third ∷ []) v) }
{
    match first {
        Instruction::Literal(factor) => match second {
            Instruction::Unknown(unknown) => match third {
                Instruction::Operator(RealOperator::Multiply, 1) => {
                    multiple(factor, unknown, values)
                }
                _ => None,
            },
            _ => None,
        },
        _ => None,
    }
}

/// The value, where there is no fault and the tape is one instruction or a number times an unknown.
pub fn short_value<V: Values>(code: &[Instruction], values: &V) -> Option<Fix>
    ensures { IfSome result (λ v. IsValue (V.readings values.now) code.now v) }
{
    match code {
        [only] => alone(*only, values),
        [first, second, third] => of_three(*first, *second, *third, values),
        _ => None,
    }
}
