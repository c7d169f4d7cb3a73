//! The residuals of the explicit equations.
ghost use Rattle.std.specs.Prelude.{◌≡◌, ◌+◌, ◌<◌, ◌≤◌, length, map, take};
ghost use Rattle.std.specs.List.{All};
ghost use Rattle.fix_core.specs.Passes.{each, answer, joined};
ghost use Rattle.design_meaning.specs.Equations.{row_of};
ghost use Rattle.equation_values.specs.Residuals.{residual_at};
ghost use Rattle.equation_values.specs.Evaluable.{CanEvaluatePair};
ghost use Rattle.equation_values.specs.Reading.{readings_in};
ghost use Rattle.prepared_pairs.specs.Prepared.{prepared_each};

use crate::sides::pair_residual;
use design_meaning::EvalFault;
use equation_values::EquationValues;
use fix_core::Fix;
use flat_design::Pair;
use flat_expr::Unknown;
use prepared_pairs::PreparedPair;

/// Writes the residuals of equations, which are prepared so for rows with these unknowns, from a place on, or answers the first
/// fault.
pub fn write_residuals(
    pairs: &[Pair],
    prepared: &[PreparedPair],
    unknowns: &[Unknown],
    values: &EquationValues<'_>,
    out: &mut [Fix],
    first: usize,
) -> Result<(), EvalFault>
    requires evaluable { All (CanEvaluatePair (readings_in values.now)) pairs.now }
    requires prepared { prepared.now ≡ prepared_each unknowns.now pairs.now }
    requires room { first + length pairs.now ≤ length out.old }
    ensures answer { joined (take first out.old) (each (residual_at (readings_in values.now)) (map row_of pairs.now)) ≡ answer result (take (first + length pairs.now) out.new) }
    ensures count { length out.new ≡ length out.old }
{
    for i in 0..pairs.len() {
        out[first + i] = pair_residual(&pairs[i], &prepared[i], values)?;
    }
    Ok(())
}
