//! The rows of an augmentation set.
ghost use Rattle.std.specs.Prelude.{◌≡◌, ◌+◌, ◌<◌, ◌≤◌, IsTrue, Ok, length, take, slice_set};
ghost use Rattle.std.specs.List.{All};
ghost use Rattle.fix_core.specs.Passes.{and_then, each, answer, joined};
ghost use Rattle.flat_design.specs.Order.{unknowns, unknown_count};
ghost use Rattle.design_meaning.specs.Equations.{augmentations_from};
ghost use Rattle.design_meaning.specs.Newton.{linear_row};
ghost use Rattle.design_rules.specs.Design.{IsDesign};
ghost use Rattle.system_model.specs.System.{is_element};
ghost use Rattle.equation_values.specs.Reading.{readings_in};
ghost use Rattle.equation_values.specs.Residuals.{residual_at};
ghost use Rattle.augmentation_rows.specs.Sets.{set_by, HasStep};
ghost use Rattle.augmentation_rows.specs.Forms.{row_by, IsShortRow, IsRowOf};

use crate::forms::{DotForm, dot_form};
use crate::residual::residual;
use crate::set::Augmentation;
use crate::slopes::write_slopes;
use design_meaning::EvalFault;
use equation_values::EquationValues;
use fix_core::Fix;
use flat_design::Flat;
use sparse_rows::SparseRows;
use step_data::Element;

/// Writes the row of an equation.
fn fill_row(
    form: &DotForm,
    flat: &Flat,
    values: &EquationValues<'_>,
    rows: &mut SparseRows,
    row: usize,
) -> Result<(), EvalFault>
    requires known { IsRowOf flat.now (row_by form.now) }
    requires short { IsShortRow (row_by form.now) }
    requires size { length rows.old ≡ unknown_count flat.now }
    requires row { row < length rows.old }
    ensures answer { and_then (λ own. Ok (slice_set rows.old row own)) (linear_row (unknowns flat.now) (readings_in values.now) (row_by form.now)) ≡ answer result rows.new }
    ensures count { length rows.new ≡ length rows.old }
{
    let residual = residual(form, values)?;
    rows.clear(row);
    write_slopes(form, flat, rows, row);
    rows.set(row, flat.unknown_count(), residual);
    Ok(())
}

/// Writes the rows of a set with its break elements from a row on, or answers the first fault.
pub fn fill_augmentations(
    set: &Augmentation<'_>,
    elements: &[Element],
    flat: &Flat,
    values: &EquationValues<'_>,
    rows: &mut SparseRows,
    first: usize,
) -> Result<(), EvalFault>
    requires design { IsDesign flat.now }
    requires step { HasStep set.now }
    requires elements { All (λ e. IsTrue (is_element flat.now e)) elements.now }
    requires size { length rows.old ≡ unknown_count flat.now }
    requires room { first + length flat.now.dots ≤ length rows.old }
    ensures answer { joined (take first rows.old) (each (linear_row (unknowns flat.now) (readings_in values.now)) (augmentations_from (set_by set.now) elements.now 0 flat.now.dots)) ≡ answer result (take (first + length flat.now.dots) rows.new) }
    ensures count { length rows.new ≡ length rows.old }
{
    let dots = flat.dots();
    for i in 0..dots.len() {
        let form = dot_form(set, elements, i as u32, dots[i]);
        fill_row(&form, flat, values, rows, first + i)?;
    }
    Ok(())
}

/// Writes the residuals of a set with its break elements from a place on, or answers the first fault.
pub fn write_residuals(
    set: &Augmentation<'_>,
    elements: &[Element],
    flat: &Flat,
    values: &EquationValues<'_>,
    out: &mut [Fix],
    first: usize,
) -> Result<(), EvalFault>
    requires design { IsDesign flat.now }
    requires step { HasStep set.now }
    requires room { first + length flat.now.dots ≤ length out.old }
    ensures answer { joined (take first out.old) (each (residual_at (readings_in values.now)) (augmentations_from (set_by set.now) elements.now 0 flat.now.dots)) ≡ answer result (take (first + length flat.now.dots) out.new) }
    ensures count { length out.new ≡ length out.old }
{
    let dots = flat.dots();
    for i in 0..dots.len() {
        let form = dot_form(set, elements, i as u32, dots[i]);
        out[first + i] = residual(&form, values)?;
    }
    Ok(())
}
