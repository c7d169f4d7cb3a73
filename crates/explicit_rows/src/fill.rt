//! The rows of the linear system that the explicit equations give.
ghost use Rattle.std.specs.Prelude.{◌≡◌, ◌+◌, ◌<◌, ◌≤◌, [], length, map, take, slice_index_or, slice_set, IsOk};
ghost use Rattle.std.specs.List.{All};
ghost use Rattle.fix_core.specs.Passes.{and_then, each, answer, joined};
ghost use Rattle.flat_expr.specs.declared.expr.Unknown.TheVariants.{Quantity};
ghost use Rattle.design_meaning.specs.Equations.{row_of, residual_of, row_slope};
ghost use Rattle.design_meaning.specs.Newton.{linear_row};
ghost use Rattle.prepared_pairs.specs.Prepared.{constants_at, prepared, prepared_each};
ghost use Rattle.equation_values.specs.Evaluable.{CanEvaluatePair};
ghost use Rattle.explicit_rows.specs.Writing.{with_slopes};
ghost use Rattle.equation_values.specs.Reading.{readings_in};

use crate::sides::{constant_or_slope, pair_residual};
use design_meaning::EvalFault;
use equation_values::EquationValues;
use fix_core::Fix;
use flat_design::Pair;
use flat_expr::Unknown;
use prepared_pairs::PreparedPair;
use sparse_rows::SparseRows;

/// Writes the slopes at the asked places of a row, of an equation that has a residual. These are its constant slopes.
fn write_slopes(
    pair: &Pair,
    places: &[usize],
    constants: &[Option<Fix>],
    unknowns: &[Unknown],
    values: &EquationValues<'_>,
    rows: &mut SparseRows,
    row: usize,
) -> Result<(), EvalFault>
    requires evaluable { CanEvaluatePair (readings_in values.now) pair.now }
    requires places { All (λ place. place < length unknowns.now) places.now }
    requires constants { constants.now ≡ constants_at pair.now unknowns.now places.now }
    requires residual { IsOk (residual_of (row_of pair.now) (readings_in values.now)) }
    requires size { length unknowns.now ≡ length rows.old }
    requires row { row < length rows.old }
    ensures answer { with_slopes (λ place. row_slope (row_of pair.now) (readings_in values.now) (slice_index_or unknowns.now place (Quantity 0))) places.now (slice_index_or rows.old row []) ≡ answer result (slice_index_or rows.new row []) }
    ensures others { rows.new ≡ slice_set rows.old row (slice_index_or rows.new row []) }
    ensures count { length rows.new ≡ length rows.old }
{
    for i in 0..places.len() {
        let slope = constant_or_slope(pair, constants[i], unknowns[places[i]], values)?;
        rows.set(row, places[i], slope);
    }
    Ok(())
}

/// Writes the row of an equation, which is prepared so.
fn fill_pair(
    pair: &Pair,
    own: &PreparedPair,
    unknowns: &[Unknown],
    values: &EquationValues<'_>,
    rows: &mut SparseRows,
    row: usize,
) -> Result<(), EvalFault>
    requires evaluable { CanEvaluatePair (readings_in values.now) pair.now }
    requires own { own.now ≡ prepared pair.now unknowns.now }
    requires size { length unknowns.now ≡ length rows.old }
    requires row { row < length rows.old }
    ensures answer { and_then (λ own. Ok (slice_set rows.old row own)) (linear_row unknowns.now (readings_in values.now) (row_of pair.now)) ≡ answer result rows.new }
    ensures count { length rows.new ≡ length rows.old }
{
    let residual = pair_residual(pair, own, values)?;
    rows.clear(row);
    write_slopes(
        pair,
        own.places(),
        own.constants(),
        unknowns,
        values,
        rows,
        row,
    )?;
    rows.set(row, unknowns.len(), residual);
    Ok(())
}

/// Writes the rows of equations, which are prepared so, from a row on, or answers the first fault.
pub fn fill_pairs(
    pairs: &[Pair],
    prepared: &[PreparedPair],
    unknowns: &[Unknown],
    values: &EquationValues<'_>,
    rows: &mut SparseRows,
    first: usize,
) -> Result<(), EvalFault>
    requires evaluable { All (CanEvaluatePair (readings_in values.now)) pairs.now }
    requires prepared { prepared.now ≡ prepared_each unknowns.now pairs.now }
    requires size { length unknowns.now ≡ length rows.old }
    requires room { first + length pairs.now ≤ length rows.old }
    ensures answer { joined (take first rows.old) (each (linear_row unknowns.now (readings_in values.now)) (map row_of pairs.now)) ≡ answer result (take (first + length pairs.now) rows.new) }
    ensures count { length rows.new ≡ length rows.old }
{
    for i in 0..pairs.len() {
        fill_pair(&pairs[i], &prepared[i], unknowns, values, rows, first + i)?;
    }
    Ok(())
}
