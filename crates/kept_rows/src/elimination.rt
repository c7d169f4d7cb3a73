//! An elimination that is kept, and made anew.
ghost use Rattle.std.specs.Prelude.{◌≡◌, ◌+◌, ◌<◌, ◌^◌, length, true, false, IfOk, OnOk, IsTrue};
ghost use Rattle.std.specs.List.{All};
ghost use Rattle.fix_core.specs.Fixed.{IsInRange};
ghost use Rattle.fix_core.specs.Passes.{answer};
ghost use Rattle.lin_solve.specs.Elimination.{solution_of};
ghost use Rattle.kept_elimination.specs.Kept.{eliminated, matrix_of, solved};
ghost use Rattle.kept_rows.specs.Held.{kept_columns, HasRoom, Divides};
ghost use Rattle.kept_rows.specs.Whole.{IsKept, kept_of};
ghost use Rattle.kept_rows.specs.Sound.{IsSound};
ghost use Rattle.kept_rows.specs.Joined.{rows_with};

use crate::column::{Column, eliminate};
use crate::matrix::{copy_matrix, ends_alike, is_matrix_of, see_ranges};
use crate::passes::solve_by;
use crate::turns::scale_all;
use fix_core::Fix;
use lin_solve::LinFault;
use sparse_row::SparseRow;
use std::alloc::{AllocError, Global};

/// Scales the rows of a square matrix, and takes out its columns. The rows are used up.
fn eliminate_all(
    rows: &mut [SparseRow],
    turns: &mut [u32],
    columns: &mut [Column],
    spare: &mut SparseRow,
) -> Result<(), LinFault>
    requires small { length rows.old < 2 ^ 32 }
    requires rows { All (λ row. length row ≡ length rows.old) rows.old }
    requires turns { length turns.old ≡ length rows.old }
    requires columns { length columns.old ≡ length rows.old }
    requires room { HasRoom (length rows.old) columns.old }
    requires spare { length spare.old ≡ length rows.old }
    ensures answer { eliminated rows.old ≡ answer result (record { turns = turns.new; columns = kept_columns columns.new }) }
    ensures quotients { OnOk result (Divides 0 columns.new) }
    ensures rows { All (λ row. length row ≡ length rows.old) rows.new }
    ensures room { HasRoom (length rows.old) columns.new }
    ensures spare { length spare.new ≡ length rows.old }
{
    let width = rows.len();
    let Ok(()) = scale_all(rows, turns, width) else {
        return Err(LinFault::Overflow);
    };
    eliminate(rows, columns, 0, width, spare)
}

/// Copies the coefficients of rows, and eliminates them. Tells whether there is an elimination.
fn keep(
    matrix: &mut [SparseRow],
    rows: &mut [SparseRow],
    turns: &mut [u32],
    columns: &mut [Column],
    spare: &mut SparseRow,
    from: &[SparseRow],
) -> bool
    requires room { IsKept matrix.old rows.old turns.old columns.old spare.old false }
    requires count { length from.now ≡ length matrix.old }
    requires from { All (λ row. length row ≡ length from.now + 1) from.now }
    ensures matrix { matrix.new ≡ matrix_of from.now }
    ensures kept { IsKept matrix.new rows.new turns.new columns.new spare.new result }
{
    copy_matrix(matrix, from);
    copy_matrix(rows, from);
    eliminate_all(rows, turns, columns, spare).is_ok()
}

/// A square matrix and its elimination, where it is kept.
#[derive(Drop)]
pub struct Elimination {
    pub matrix: Vec<SparseRow>,
    /// Rows to eliminate.
    pub rows: Vec<SparseRow>,
    pub turns: Vec<u32>,
    pub columns: Vec<Column>,
    pub spare: SparseRow,
    pub is_kept: bool,
}

impl Elimination {
    /// Room for a matrix of so many rows.
    pub fn new(alloc: Global, n: usize) -> Result<Elimination, AllocError>
        ensures { IfOk result (λ kept. IsSound kept × (length kept.matrix.items ≡ n)) }
    {
        if n >= 4_294_967_295 {
            return Err(AllocError);
        }
        let mut matrix = Vec::new(alloc);
        let mut rows = Vec::new(alloc);
        let mut columns = Vec::new(alloc);
        for row in 0..n {
            matrix.push(SparseRow::new(alloc, n)?)?;
            rows.push(SparseRow::new(alloc, n)?)?;
            columns.push(Column::new(alloc, n, n - 1 - row)?)?;
        }
        let turns = vec![in alloc; 0u32; n]?;
        let spare = SparseRow::new(alloc, n)?;
        Ok(Elimination {
            matrix,
            rows,
            turns,
            columns,
            spare,
            is_kept: false,
        })
    }

    /// Whether the elimination of the rows' coefficients is kept.
    pub fn is_for(&self, rows: &[SparseRow]) -> bool
        requires sound { IsSound self.now }
        requires count { length rows.now ≡ length self.now.matrix.items }
        requires rows { All (λ row. length row ≡ length rows.now + 1) rows.now }
        ensures kept { IsTrue result → self.now.is_kept ≡ true }
        ensures matrix { IsTrue result → self.now.matrix.items ≡ matrix_of rows.now }
    {
        let matrix = self.matrix.as_slice();
        self.is_kept && ends_alike(matrix, rows) && is_matrix_of(matrix, rows)
    }

    /// Sees that the elimination of the rows' coefficients is kept. None is where these have none.
    pub fn prepare(&mut self, rows: &[SparseRow]) -> bool
        requires sound { IsSound self.old }
        requires count { length rows.now ≡ length self.old.matrix.items }
        requires rows { All (λ row. length row ≡ length rows.now + 1) rows.now }
        ensures sound { IsSound self.new }
        ensures kept { result ≡ self.new.is_kept }
        ensures matrix { self.new.matrix.items ≡ matrix_of rows.now }
    {
        if self.is_for(rows) {
            return true;
        }
        self.is_kept = keep(
            self.matrix.as_mut_slice(),
            self.rows.as_mut_slice(),
            self.turns.as_mut_slice(),
            self.columns.as_mut_slice(),
            &mut self.spare,
            rows,
        );
        self.is_kept
    }

    /// Gives the unknowns for right sides, in their place.
    pub fn solve(&self, numbers: &mut [Fix]) -> Result<(), LinFault>
        requires sound { IsSound self.now }
        requires kept { self.now.is_kept ≡ true }
        requires count { length numbers.old ≡ length self.now.matrix.items }
        requires within { All IsInRange numbers.old }
        ensures { solved (kept_of self.now.turns.items self.now.columns.items) numbers.old ≡ answer result numbers.new }
    {
        solve_by(self.turns.as_slice(), self.columns.as_slice(), numbers)
    }

    /// Gives the unknowns of the kept matrix for right sides, in their place.
    pub fn unknowns(&self, numbers: &mut [Fix]) -> Result<(), LinFault>
        requires sound { IsSound self.now }
        requires kept { self.now.is_kept ≡ true }
        requires count { length numbers.old ≡ length self.now.matrix.items }
        ensures { solution_of (rows_with self.now.matrix.items numbers.old) ≡ answer result numbers.new }
    {
        see_ranges(numbers);
        self.solve(numbers)
    }
}
