//! A column that is eliminated.
ghost use Rattle.std.specs.Prelude.{◌≡◌, ◌+◌, ◌<◌, ◌^◌, length, unsigned_abs, drop, IfOk, OnOk};
ghost use Rattle.std.specs.List.{All};
ghost use Rattle.fix_core.specs.Fixed.{quotient_of};
ghost use Rattle.fix_core.specs.Passes.{answer, each};
ghost use Rattle.lin_solve.specs.Elimination.{coefficient};
ghost use Rattle.kept_elimination.specs.Kept.{reduction, columns_of};
ghost use Rattle.number_ratio.specs.Kept.{Divisor};
ghost use Rattle.kept_rows.specs.Told.{reduction_told, reductions, first_step};
ghost use Rattle.kept_rows.specs.Held.{column_of, kept_columns, HasRoom, Divides};

use fix_core::{Fix, NumFault};
use lin_solve::LinFault;
use number_ratio::Ratio;
use sparse_row::SparseRow;
use sparse_rows::choose_pivot;
use std::alloc::{AllocError, Global};
use std::mem::swap;

/// A column with all that right sides need of its elimination.
#[derive(Drop)]
pub struct Column {
    /// The place from which the pivot row was swapped into the first one.
    pub place: usize,
    /// The pivot row's coefficients.
    pub pivot: SparseRow,
    /// The factors of the rows below.
    pub factors: SparseRow,
    /// Divides by the pivot.
    pub quotient: Ratio,
}

/// The quotient by a number other than 0. Of 0 it is 0.
fn quotient(number: Fix, divisor: Fix) -> Result<Fix, NumFault>
    requires { 0 < unsigned_abs divisor }
    ensures { result ≡ quotient_of number divisor }
{
    if number.magnitude() == 0 {
        return Ok(number);
    }
    number.div(divisor)
}

/// Takes the pivot row off, as often as clears the column, and tells how often.
fn reduce(
    row: &mut SparseRow,
    pivot: &SparseRow,
    column: usize,
    spare: &mut SparseRow,
) -> Result<Fix, NumFault>
    requires column { column < length row.old }
    requires pivot { length pivot.now ≡ length row.old }
    requires spare { length spare.old ≡ length row.old }
    requires divisor { 0 < unsigned_abs (coefficient column pivot.now) }
    ensures answer { reduction column pivot.now row.old ≡ reduction_told result row.new }
    ensures width { length row.new ≡ length row.old }
    ensures spare { length spare.new ≡ length row.old }
{
    let factor = quotient(row.get(column), pivot.get(column))?;
    row.lose(factor, pivot, spare)?;
    Ok(factor)
}

/// Takes the pivot row off all rows below it, and writes down their factors.
fn reduce_all(
    pivot: &SparseRow,
    rows: &mut [SparseRow],
    factors: &mut SparseRow,
    column: usize,
    spare: &mut SparseRow,
) -> Result<(), NumFault>
    requires column { column < length pivot.now }
    requires rows { All (λ row. length row ≡ length pivot.now) rows.old }
    requires factors { length factors.old ≡ length rows.old }
    requires spare { length spare.old ≡ length pivot.now }
    requires divisor { 0 < unsigned_abs (coefficient column pivot.now) }
    ensures answer { each (reduction column pivot.now) rows.old ≡ answer result (reductions factors.new rows.new) }
    ensures rows { All (λ row. length row ≡ length pivot.now) rows.new }
    ensures factors { length factors.new ≡ length rows.old }
    ensures spare { length spare.new ≡ length pivot.now }
{
    for i in 0..rows.len() {
        let factor = reduce(&mut rows[i], pivot, column, spare)?;
        factors.set(i, factor);
    }
    Ok(())
}

impl Column {
    /// A column of zeros, of rows so wide, with so many rows below its pivot row.
    pub fn new(alloc: Global, width: usize, below: usize) -> Result<Column, AllocError>
        ensures { IfOk result (λ column. (length column.pivot ≡ width) × (length column.factors ≡ below)) }
    {
        let pivot = SparseRow::new(alloc, width)?;
        let factors = SparseRow::new(alloc, below)?;
        Ok(Column {
            place: 0,
            pivot,
            factors,
            quotient: Ratio::of_divisor(Fix::exactly(0)),
        })
    }

    /// Takes the column out of the rows below its pivot row, which is swapped into the first place and then out of the rows.
    fn take(
        &mut self,
        rows: &mut [SparseRow],
        column: usize,
        width: usize,
        spare: &mut SparseRow,
    ) -> Result<(), LinFault>
        requires small { width < 2 ^ 32 }
        requires column { column < width }
        requires some { length rows.old ≡ length self.old.factors + 1 }
        requires rows { All (λ row. length row ≡ width) rows.old }
        requires pivot { length self.old.pivot ≡ width }
        requires spare { length spare.old ≡ width }
        ensures answer { first_step column rows.old ≡ answer result (record { column = column_of self.new; rows = drop 1 rows.new }) }
        ensures quotient { OnOk result (self.new.quotient ≡ Divisor (coefficient column self.new.pivot)) }
        ensures rows { All (λ row. length row ≡ width) rows.new }
        ensures pivot { length self.new.pivot ≡ width }
        ensures factors { length self.new.factors ≡ length self.old.factors }
        ensures spare { length spare.new ≡ width }
    {
        self.place = choose_pivot(rows, column, width);
        let (first, others) = rows.split_at_mut(1);
        let divisor = first[0].get(column);
        if divisor.magnitude() == 0 {
            return Err(LinFault::Singular(column as u32));
        }
        let Ok(()) = reduce_all(&first[0], others, &mut self.factors, column, spare) else {
            return Err(LinFault::Overflow);
        };
        self.quotient = Ratio::of_divisor(divisor);
        swap(&mut self.pivot, &mut first[0]);
        Ok(())
    }
}

/// Eliminates column by column, from one on. The rows are used up.
pub fn eliminate(
    rows: &mut [SparseRow],
    columns: &mut [Column],
    column: usize,
    width: usize,
    spare: &mut SparseRow,
) -> Result<(), LinFault>
    requires small { width < 2 ^ 32 }
    requires count { column + length rows.old ≡ width }
    requires rows { All (λ row. length row ≡ width) rows.old }
    requires columns { length columns.old ≡ length rows.old }
    requires room { HasRoom width columns.old }
    requires spare { length spare.old ≡ width }
    ensures answer { columns_of (length rows.old) column rows.old ≡ answer result (kept_columns columns.new) }
    ensures quotients { OnOk result (Divides column columns.new) }
    ensures rows { All (λ row. length row ≡ width) rows.new }
    ensures room { HasRoom width columns.new }
    ensures spare { length spare.new ≡ width }
{
    if rows.is_empty() {
        return Ok(());
    }
    let (first, more) = columns.split_at_mut(1);
    first[0].take(rows, column, width, spare)?;
    let (_, others) = rows.split_at_mut(1);
    eliminate(others, more, column + 1, width, spare)
}
