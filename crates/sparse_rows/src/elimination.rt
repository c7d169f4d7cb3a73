//! Elimination on rows that keep their non-zero entries.
ghost use Rattle.std.specs.Prelude.{◌≡◌, ◌+◌, ◌<◌, ◌^◌, List, length, drop};
ghost use Rattle.std.specs.List.{All, swap};
ghost use Rattle.fix_core.specs.Passes.{answer};
ghost use Rattle.lin_solve.specs.Elimination.{pivot_place as pivot_place_of, reduced_all, scaled, scaled_all, solution_of, unknown as unknown_of, unknowns as unknowns_of};

use fix_core::{Fix, NumFault, UNITS_PER_ONE};
use lin_solve::LinFault;
use sparse_row::SparseRow;

/// A row times ten, as often as is wanted until its largest coefficient is at least 1.
#[tactic(auto, using(crate::proofs::Steps::scales))]
fn scale(row: &mut SparseRow, turns: u32) -> Result<(), NumFault>
    requires some { 0 < length row.old }
    ensures answer { scaled turns row.old ≡ answer result row.new }
    ensures width { length row.new ≡ length row.old }
{
    if turns == 0 {
        return Ok(());
    }
    let size = row.largest_before(row.width() - 1);
    if size == 0 || size >= UNITS_PER_ONE {
        return Ok(());
    }
    row.raise()?;
    scale(row, turns - 1)
}

/// Scales each row.
#[tactic(auto, using(crate::proofs::Steps::passes))]
fn scale_all(rows: &mut [SparseRow], width: usize) -> Result<(), NumFault>
    requires some { 0 < width }
    requires rows { All (λ row. length row ≡ width) rows.old }
    ensures answer { scaled_all rows.old ≡ answer result rows.new }
    ensures rows { All (λ row. length row ≡ width) rows.new }
{
    for i in 0..rows.len() {
        scale(&mut rows[i], 12)?;
    }
    Ok(())
}

/// The place of the row whose coefficient in the column is largest, the first such row on ties.
#[tactic(auto, using(crate::proofs::Steps::pivots))]
fn pivot_place(rows: &[SparseRow], column: usize, width: usize) -> usize
    requires some { 0 < length rows.now }
    requires column { column < width }
    requires rows { All (λ row. length row ≡ width) rows.now }
    ensures place { result ≡ pivot_place_of column rows.now }
    ensures within { result < length rows.now }
{
    let mut largest = 0;
    let mut place = 0;
    let mut i = rows.len();
    while i > 0 {
        i -= 1;
        let size = rows[i].get(column).magnitude();
        if size >= largest {
            largest = size;
            place = i;
        }
    }
    place
}

/// Swaps the pivot row of a column into the first place, and tells its place before.
pub fn choose_pivot(rows: &mut [SparseRow], column: usize, width: usize) -> usize
    requires some { 0 < length rows.old }
    requires column { column < width }
    requires rows { All (λ row. length row ≡ width) rows.old }
    ensures place { result ≡ pivot_place_of column rows.old }
    ensures swapped { rows.new ≡ swap rows.old 0 (pivot_place_of column rows.old) }
    ensures rows { All (λ row. length row ≡ width) rows.new }
{
    let place = pivot_place(rows, column, width);
    rows.swap(0, place);
    place
}

/// Takes the pivot row off all rows below it.
#[tactic(auto, using(crate::proofs::Steps::passes))]
fn reduce_all(
    pivot: &SparseRow,
    rows: &mut [SparseRow],
    column: usize,
    spare: &mut SparseRow,
) -> Result<(), NumFault>
    requires column { column < length pivot.now }
    requires rows { All (λ row. length row ≡ length pivot.now) rows.old }
    requires spare { length spare.old ≡ length pivot.now }
    ensures answer { reduced_all column pivot.now rows.old ≡ answer result rows.new }
    ensures rows { All (λ row. length row ≡ length pivot.now) rows.new }
    ensures spare { length spare.new ≡ length pivot.now }
{
    for i in 0..rows.len() {
        rows[i].reduce(pivot, column, spare)?;
    }
    Ok(())
}

/// The unknown of a column from its pivot row and the unknowns of the later columns.
fn first_unknown(row: &SparseRow, unknowns: &[Fix], column: usize) -> Result<Fix, NumFault>
    requires column { column < length unknowns.now }
    requires unknowns { length unknowns.now + 1 ≡ length row.now }
    ensures { result ≡ unknown_of column row.now (drop (column + 1) unknowns.now) }
{
    let right_side = row.get(row.width() - 1);
    let left = row.substitute(column, right_side, unknowns)?;
    left.div(row.get(column))
}

/// Takes each column out of the rows below its pivot row, and then finds the unknowns, the last one first.
fn eliminate(
    rows: &mut [SparseRow],
    unknowns: &mut [Fix],
    column: usize,
    spare: &mut SparseRow,
) -> Result<(), LinFault>
    requires small { length unknowns.old < 2 ^ 32 }
    requires count { column + length rows.old ≡ length unknowns.old }
    requires rows { All (λ row. length row ≡ length unknowns.old + 1) rows.old }
    requires spare { length spare.old ≡ length unknowns.old + 1 }
    ensures answer { unknowns_of (length rows.old) column rows.old ≡ answer result (drop column unknowns.new) }
    ensures rows { All (λ row. length row ≡ length unknowns.old + 1) rows.new }
    ensures spare { length spare.new ≡ length unknowns.old + 1 }
{
    if rows.is_empty() {
        return Ok(());
    }
    choose_pivot(rows, column, unknowns.len() + 1);
    let (front, others) = rows.split_at_mut(1);
    let pivot = &front[0];
    if pivot.get(column).magnitude() == 0 {
        return Err(LinFault::Singular(column as u32));
    }
    let Ok(()) = reduce_all(pivot, others, column, spare) else {
        return Err(LinFault::Overflow);
    };
    eliminate(others, unknowns, column + 1, spare)?;
    let Ok(unknown) = first_unknown(pivot, unknowns, column) else {
        return Err(LinFault::Overflow);
    };
    unknowns[column] = unknown;
    Ok(())
}

/// Scales the rows, and finds their unknowns.
pub fn solve_rows(
    rows: &mut [SparseRow],
    unknowns: &mut [Fix],
    spare: &mut SparseRow,
) -> Result<(), LinFault>
    requires small { length rows.old < 2 ^ 32 }
    requires rows { All (λ row. length row ≡ length rows.old + 1) rows.old }
    requires unknowns { length unknowns.old ≡ length rows.old }
    requires spare { length spare.old ≡ length rows.old + 1 }
    ensures answer { solution_of rows.old ≡ answer result unknowns.new }
    ensures rows { All (λ row. length row ≡ length rows.old + 1) rows.new }
    ensures spare { length spare.new ≡ length rows.old + 1 }
{
    let Ok(()) = scale_all(rows, unknowns.len() + 1) else {
        return Err(LinFault::Overflow);
    };
    eliminate(rows, unknowns, 0, spare)
}
