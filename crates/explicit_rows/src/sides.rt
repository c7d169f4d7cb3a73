//! The residual of an equation, and its slopes.
ghost use Rattle.std.specs.Prelude.{◌≡◌, IsOk};
ghost use Rattle.design_meaning.specs.Value.{number_of, value_of};
ghost use Rattle.design_meaning.specs.Equations.{row_of, residual_of, row_slope};
ghost use Rattle.expr_eval.specs.Condition.{CanEvaluate};
ghost use Rattle.equation_values.specs.Evaluable.{CanEvaluatePair};
ghost use Rattle.equation_values.specs.Reading.{readings_in};
ghost use Rattle.tape_code.specs.Code.{code_of};
ghost use Rattle.prepared_pairs.specs.Prepared.{constant_in_row};

use design_meaning::EvalFault;
use equation_values::EquationValues;
use eval_tape::Tape;
use expr_eval::{number, units, value};
use fix_core::Fix;
use flat_design::Pair;
use flat_expr::{FlatExpr, Unknown};
use prepared_pairs::PreparedPair;
use slope::slope;

/// The most instructions of a side that is run by its tape: for their numbers there is room on the stack.
const MOST_INSTRUCTIONS: usize = 32;

/// The number that a side is, by the expression itself.
fn tree_side(expr: &FlatExpr, values: &EquationValues<'_>) -> Result<Fix, EvalFault>
    requires { CanEvaluate (readings_in values.now) expr.now }
    ensures { result ≡ number_of (value_of expr.now (readings_in values.now)) }
{
    match value(expr, values) {
        Ok(value) => Ok(units(value)),
        Err(fault) => Err(fault),
    }
}

/// The number that a side is.
fn side(expr: &FlatExpr, tape: &Tape, values: &EquationValues<'_>) -> Result<Fix, EvalFault>
    requires evaluable { CanEvaluate (readings_in values.now) expr.now }
    requires tape { tape.now.code ≡ code_of expr.now }
    ensures { result ≡ number_of (value_of expr.now (readings_in values.now)) }
{
    if let Some(number) = tape.short_value(values) {
        return Ok(number);
    }
    if tape.len() > MOST_INSTRUCTIONS {
        return tree_side(expr, values);
    }
    let mut numbers = [Fix::exactly(0); MOST_INSTRUCTIONS];
    tape.value_in(expr, values, &mut numbers)
}

/// The left side less the right one.
pub fn pair_residual(
    pair: &Pair,
    own: &PreparedPair,
    values: &EquationValues<'_>,
) -> Result<Fix, EvalFault>
    requires evaluable { CanEvaluatePair (readings_in values.now) pair.now }
    requires left { own.now.left.code ≡ code_of pair.now.left }
    requires right { own.now.right.code ≡ code_of pair.now.right }
    ensures { result ≡ residual_of (row_of pair.now) (readings_in values.now) }
{
    let left = side(&pair.left, own.left(), values)?;
    let right = side(&pair.right, own.right(), values)?;
    number(left.sub(right))
}

/// The slope of the left side less that of the right one.
fn pair_slope(pair: &Pair, unknown: Unknown, values: &EquationValues<'_>) -> Result<Fix, EvalFault>
    requires { CanEvaluatePair (readings_in values.now) pair.now }
    ensures { result ≡ row_slope (row_of pair.now) (readings_in values.now) unknown }
{
    let left = slope(&pair.left, unknown, values)?;
    let right = slope(&pair.right, unknown, values)?;
    number(left.sub(right))
}

/// The slope of an equation that has a residual, by its constant slope where it has one.
pub fn constant_or_slope(
    pair: &Pair,
    constant: Option<Fix>,
    unknown: Unknown,
    values: &EquationValues<'_>,
) -> Result<Fix, EvalFault>
    requires evaluable { CanEvaluatePair (readings_in values.now) pair.now }
    requires constant { constant ≡ constant_in_row pair.now unknown }
    requires residual { IsOk (residual_of (row_of pair.now) (readings_in values.now)) }
    ensures { result ≡ row_slope (row_of pair.now) (readings_in values.now) unknown }
{
    match constant {
        Some(slope) => Ok(slope),
        None => pair_slope(pair, unknown, values),
    }
}
