//! Scaling: how often each row is taken times ten.
ghost use Rattle.std.specs.Prelude.{◌≡◌, ◌≤◌, length, IfOk};
ghost use Rattle.std.specs.List.{All};
ghost use Rattle.fix_core.specs.Fixed.{IsInRange};
ghost use Rattle.fix_core.specs.Passes.{answer, each};
ghost use Rattle.kept_elimination.specs.Kept.{scaling, raised, raised_all};
ghost use Rattle.kept_rows.specs.Told.{scaling_told, scalings};

use fix_core::{Fix, NumFault, UNITS_PER_ONE};
use sparse_row::SparseRow;

/// A row times ten, as often as is wanted until its largest entry is at least 1. Tells how often.
#[tactic(auto, using(crate::proofs::Turning::scales))]
fn scale(row: &mut SparseRow, turns: u32) -> Result<u32, NumFault>
    ensures answer { scaling turns row.old ≡ scaling_told result row.new }
    ensures turns { IfOk result (λ done. done ≤ turns) }
    ensures width { length row.new ≡ length row.old }
{
    if turns == 0 {
        return Ok(0);
    }
    let size = row.largest_before(row.width());
    if size == 0 || size >= UNITS_PER_ONE {
        return Ok(0);
    }
    row.raise()?;
    let more = scale(row, turns - 1)?;
    Ok(more + 1)
}

/// Scales each row, and writes down how often.
pub fn scale_all(rows: &mut [SparseRow], turns: &mut [u32], width: usize) -> Result<(), NumFault>
    requires turns { length turns.old ≡ length rows.old }
    requires rows { All (λ row. length row ≡ width) rows.old }
    ensures answer { each (scaling 12) rows.old ≡ answer result (scalings turns.new rows.new) }
    ensures rows { All (λ row. length row ≡ width) rows.new }
{
    for i in 0..rows.len() {
        turns[i] = scale(&mut rows[i], 12)?;
    }
    Ok(())
}

/// A number times ten, so many times.
#[tactic(auto, using(crate::proofs::Turning::raises))]
fn raise(turns: u32, b: Fix) -> Result<Fix, NumFault>
    ensures { result ≡ raised turns b }
{
    if turns == 0 {
        return Ok(b);
    }
    raise(turns - 1, b.tenfold()?)
}

/// Scales the right sides as their rows are scaled.
#[tactic(auto, using(crate::proofs::Turning::all_raises))]
pub fn raise_all(turns: &[u32], numbers: &mut [Fix]) -> Result<(), NumFault>
    requires count { length turns.now ≡ length numbers.old }
    requires within { All IsInRange numbers.old }
    ensures answer { raised_all turns.now numbers.old ≡ answer result numbers.new }
    ensures within { All IsInRange numbers.new }
{
    for i in 0..numbers.len() {
        let times = turns[i];
        numbers[i] = raise(times, numbers[i])?;
    }
    Ok(())
}
