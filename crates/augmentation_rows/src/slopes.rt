//! The slopes of the augmentation equations.
ghost use Rattle.std.specs.Prelude.{◌≡◌, ◌+◌, ◌<◌, ◌≤◌, [], length, pos, neg_ℤ, slice_index_or, slice_set};
ghost use Rattle.fix_core.specs.Units.{one};
ghost use Rattle.fix_core.specs.Rounding.{rnd};
ghost use Rattle.flat_expr.specs.declared.expr.Unknown.TheVariants.{Quantity, Dot};
ghost use Rattle.flat_design.specs.Order.{number_of, unknown_count};
ghost use Rattle.augmentation_rows.specs.Forms.{row_by, IsRowOf};
ghost use Rattle.augmentation_rows.specs.Writing.{with_two, with_slopes};

use crate::forms::DotForm;
use fix_core::{Fix, UNITS_PER_ONE, round_quotient};
use flat_design::Flat;
use flat_expr::Unknown;
use sparse_rows::SparseRows;

fn one() -> Fix
    ensures { result ≡ one }
{
    Fix::exactly(UNITS_PER_ONE as i128)
}

/// Half a step, rounded.
#[tactic(auto, using(crate::proofs::Steps::small_half))]
fn half(step: Fix) -> Fix
    ensures { result ≡ rnd step (pos 2) }
{
    Fix::exactly(round_quotient(step.units(), 2))
}

/// Writes 1.0 for a quantity and a slope for its dot.
fn write_two(quantity: u32, dot: u32, slope: Fix, flat: &Flat, rows: &mut SparseRows, row: usize)
    requires quantity { quantity < length flat.now.quantities }
    requires dot { dot < length flat.now.dots }
    requires size { length rows.old ≡ unknown_count flat.now }
    requires row { row < length rows.old }
    ensures written { rows.new ≡ slice_set rows.old row (with_two flat.now quantity dot slope (slice_index_or rows.old row [])) }
    ensures count { length rows.new ≡ length rows.old }
{
    rows.set(row, flat.number_of(Unknown::Quantity(quantity)), one());
    rows.set(row, flat.number_of(Unknown::Dot(dot)), slope);
}

/// Writes the slopes of an equation into a row.
pub fn write_slopes(form: &DotForm, flat: &Flat, rows: &mut SparseRows, row: usize)
    requires known { IsRowOf flat.now (row_by form.now) }
    requires size { length rows.old ≡ unknown_count flat.now }
    requires row { row < length rows.old }
    ensures written { rows.new ≡ slice_set rows.old row (with_slopes flat.now (row_by form.now) (slice_index_or rows.old row [])) }
    ensures count { length rows.new ≡ length rows.old }
{
    match form {
        DotForm::Given(unknown, _) => rows.set(row, flat.number_of(*unknown), one()),
        DotForm::Euler(quantity, dot, _, step) => {
            let slope = Fix::exactly(*step as i128).neg();
            write_two(*quantity, *dot, slope, flat, rows, row)
        }
        DotForm::Trapezoid(quantity, dot, _, _, step) => {
            let slope = half(Fix::exactly(*step as i128)).neg();
            write_two(*quantity, *dot, slope, flat, rows, row)
        }
    }
}
