//! Linear systems of fixed-point numbers, solved by elimination.
#![tactic(auto)]

ghost use Rattle.std.specs.Prelude.{◌≡◌, ◌+◌, ◌<◌, ◌≤◌, ◌^◌, List, [], length, drop, map, slice_index_or, slice_set, unsigned_abs, pos, replicate, IfOk, OnErr};
ghost use Rattle.std.specs.List.{All, swap};
ghost use Rattle.fix_core.specs.Fixed.{IsInRange};
ghost use Rattle.lin_solve.specs.Elimination.{coefficient, minus_row as minus_row_of, reduced, reduced_all, unknown as unknown_of, pivot_place as pivot_place_of, unknowns as unknowns_of, largest as largest_of, tenfold as tenfold_of, scaled, scaled_all, solution_of};
ghost use Rattle.lin_solve.specs.Laws.{TwelveTurnsAreEnough, ZeroFactorKeepsTheRow};
ghost use Rattle.lin_solve.specs.Codes.{code_of};
ghost use Rattle.fix_core.specs.Passes.{answer};
ghost use Rattle.lin_solve.specs.Entries.{items_of, IsRow};

use ams_point::Point;
use fix_core::{Fix, NumFault, UNITS_PER_ONE};
use std::alloc::{AllocError, Global};
use std::marker::Model;

/// Why a system has no solution here.
#[derive(Clone, Copy, Debug, PartialEq, Eq)]
pub enum LinFault {
    /// No row is left with a coefficient in this column.
    Singular(u32),
    /// A number on the way is too large.
    Overflow,
}

impl LinFault {
    /// The number of the fault's message.
    pub fn code(self) -> u8
        ensures { result ≡ code_of self }
    {
        match self {
            LinFault::Singular(_) => message_codes::SINGULAR,
            LinFault::Overflow => message_codes::SOLVER_OVERFLOW,
        }
    }
}

/// Twelve times ten are enough to scale a row. It is proved, and does nothing when it runs.
#[tactic(auto, using(crate::proofs::ScalingLaws::laws))]
pub fn twelve_turns_are_enough()
    ensures { TwelveTurnsAreEnough }
{}

/// A row that loses the pivot row 0 times stays as it is. It is proved, and does nothing when it runs.
#[tactic(auto, using(crate::proofs::ScalingLaws::laws))]
pub fn zero_factor_keeps_the_row()
    ensures { ZeroFactorKeepsTheRow }
{}

/// Each entry loses `factor` times the pivot row's entry in the same column.
#[tactic(auto, using(crate::proofs::Steps::minus_rows))]
fn minus_row(factor: Fix, pivot: &[Fix], row: &mut [Fix]) -> Result<(), NumFault>
    requires lengths { length pivot.now ≡ length row.old }
    requires within { All IsInRange row.old }
    ensures answer { minus_row_of factor pivot.now row.old ≡ answer result row.new }
    ensures within { All IsInRange row.new }
{
    for i in 0..row.len() {
        let loss = factor.mul(pivot[i])?;
        row[i] = row[i].sub(loss)?;
    }
    Ok(())
}

/// Takes the pivot row off a row, as often as clears the column. A row that has nothing in the column stays as it is.
#[tactic(auto, using(crate::proofs::Steps::reductions))]
fn reduce(pivot: &[Fix], row: &mut [Fix], column: usize) -> Result<(), NumFault>
    requires column { column < length row.old }
    requires lengths { length pivot.now ≡ length row.old }
    requires within { All IsInRange row.old }
    ensures answer { reduced column pivot.now row.old ≡ answer result row.new }
    ensures within { All IsInRange row.new }
{
    let factor = row[column].div(pivot[column])?;
    if factor.magnitude() == 0 {
        return Ok(());
    }
    minus_row(factor, pivot, row)
}

/// Takes the pivot row off all rows below it.
fn reduce_all(pivot: &[Fix], rows: &mut [Vec<Fix>], column: usize) -> Result<(), NumFault>
    requires column { column < length pivot.now }
    requires rows { All (IsRow (length pivot.now)) (items_of rows.old) }
    ensures answer { reduced_all column pivot.now (items_of rows.old) ≡ answer result (items_of rows.new) }
    ensures rows { All (IsRow (length pivot.now)) (items_of rows.new) }
{
    for i in 0..rows.len() {
        reduce(pivot, rows[i].as_mut_slice(), column)?;
    }
    Ok(())
}

/// The magnitude of a coefficient.
fn size_at(rows: &[Vec<Fix>], place: usize, column: usize) -> u128
    requires place { place < length rows.now }
    requires small { column < 2 ^ 32 }
    requires column { All (λ r. column < length r) (items_of rows.now) }
    ensures { result ≡ unsigned_abs (coefficient column (slice_index_or (items_of rows.now) place [])) }
{
    let row = rows[place].as_slice();
    row[column].magnitude()
}

/// The place of the row whose coefficient in the column is largest, the first such row on ties.
#[tactic(auto, using(crate::proofs::Steps::pivots))]
fn pivot_place(rows: &[Vec<Fix>], column: usize) -> usize
    requires some { 0 < length rows.now }
    requires small { column < 2 ^ 32 }
    requires column { All (λ r. column < length r) (items_of rows.now) }
    ensures place { result ≡ pivot_place_of column (items_of rows.now) }
    ensures within { result < length rows.now }
{
    let mut largest = 0;
    let mut place = 0;
    let mut i = rows.len();
    while i > 0 {
        i -= 1;
        let size = size_at(rows, i, column);
        if size >= largest {
            largest = size;
            place = i;
        }
    }
    place
}

/// The unknown of a column from its pivot row and the unknowns of the later columns.
#[tactic(auto, using(crate::proofs::Steps::substitutions))]
fn first_unknown(row: &[Fix], others: &[Fix], column: usize) -> Result<Fix, NumFault>
    requires { column + 1 + length others.now < length row.now }
    ensures { result ≡ unknown_of column row.now others.now }
{
    let mut sum = row[row.len() - 1];
    for i in 0..others.len() {
        let loss = row[column + 1 + i].mul(others[i])?;
        sum = sum.sub(loss)?;
    }
    sum.div(row[column])
}

/// The largest magnitude.
#[tactic(auto, using(crate::proofs::Steps::largests))]
fn largest(coefficients: &[Fix]) -> u128
    ensures { result ≡ largest_of coefficients.now }
{
    let mut largest = 0;
    for coefficient in coefficients {
        largest = coefficient.magnitude().max(largest);
    }
    largest
}

/// Each number times ten.
#[tactic(auto, using(crate::proofs::Steps::passes))]
fn tenfold(row: &mut [Fix]) -> Result<(), NumFault>
    requires { All IsInRange row.old }
    ensures answer { tenfold_of row.old ≡ answer result row.new }
    ensures within { All IsInRange row.new }
{
    for i in 0..row.len() {
        row[i] = row[i].tenfold()?;
    }
    Ok(())
}

/// A row times ten, as often as is wanted until its largest coefficient is at least 1.
#[tactic(auto, using(crate::proofs::Steps::scales))]
fn scale(row: &mut [Fix], turns: u32) -> Result<(), NumFault>
    requires some { 0 < length row.old }
    requires within { All IsInRange row.old }
    ensures answer { scaled turns row.old ≡ answer result row.new }
    ensures within { All IsInRange row.new }
{
    if turns == 0 {
        return Ok(());
    }
    let size = largest(&row[..row.len() - 1]);
    if size == 0 || size >= UNITS_PER_ONE {
        return Ok(());
    }
    tenfold(row)?;
    scale(row, turns - 1)
}

/// Scales each row.
#[tactic(auto, using(crate::proofs::Steps::passes))]
fn scale_all(rows: &mut [Vec<Fix>], width: usize) -> Result<(), NumFault>
    requires some { 0 < width }
    requires rows { All (IsRow width) (items_of rows.old) }
    ensures answer { scaled_all (items_of rows.old) ≡ answer result (items_of rows.new) }
    ensures rows { All (IsRow width) (items_of rows.new) }
{
    for i in 0..rows.len() {
        scale(rows[i].as_mut_slice(), 12)?;
    }
    Ok(())
}

/// Swaps the pivot row of a column into the first place.
fn choose_pivot(rows: &mut [Vec<Fix>], column: usize, width: usize)
    requires some { 0 < length rows.old }
    requires small { column < 2 ^ 32 }
    requires column { column < width }
    requires rows { All (IsRow width) (items_of rows.old) }
    ensures swapped { items_of rows.new ≡ swap (items_of rows.old) 0 (pivot_place_of column (items_of rows.old)) }
    ensures rows { All (IsRow width) (items_of rows.new) }
{
    let place = pivot_place(rows, column);
    rows.swap(0, place);
}

/// Takes each column out of the rows below its pivot row, and then finds the unknowns, the last one first.
fn eliminate(
    rows: &mut [Vec<Fix>],
    unknowns: &mut [Fix],
    column: usize,
    width: usize,
) -> Result<(), LinFault>
    requires small { width < 2 ^ 32 }
    requires count { column + length rows.old + 1 ≡ width }
    requires rows { All (IsRow width) (items_of rows.old) }
    requires unknowns { length unknowns.old + 1 ≡ width }
    ensures answer { unknowns_of (length rows.old) column (items_of rows.old) ≡ answer result (drop column unknowns.new) }
    ensures rows { All (IsRow width) (items_of rows.new) }
{
    if rows.is_empty() {
        return Ok(());
    }
    choose_pivot(rows, column, width);
    let (front, others) = rows.split_at_mut(1);
    let pivot = front[0].as_slice();
    if pivot[column].magnitude() == 0 {
        return Err(LinFault::Singular(column as u32));
    }
    let Ok(()) = reduce_all(pivot, others, column) else {
        return Err(LinFault::Overflow);
    };
    eliminate(others, unknowns, column + 1, width)?;
    let Ok(unknown) = first_unknown(pivot, &unknowns[column + 1..], column) else {
        return Err(LinFault::Overflow);
    };
    unknowns[column] = unknown;
    Ok(())
}

/// Scales the rows, and finds their unknowns.
fn solve_rows(rows: &mut [Vec<Fix>], unknowns: &mut [Fix]) -> Result<(), LinFault>
    requires small { length rows.old + 1 < 2 ^ 32 }
    requires rows { All (IsRow (length rows.old + 1)) (items_of rows.old) }
    requires unknowns { length unknowns.old ≡ length rows.old }
    ensures answer { solution_of (items_of rows.old) ≡ answer result unknowns.new }
    ensures rows { All (IsRow (length rows.old + 1)) (items_of rows.new) }
{
    let width = rows.len() + 1;
    let Ok(()) = scale_all(rows, width) else {
        return Err(LinFault::Overflow);
    };
    eliminate(rows, unknowns, 0, width)
}

/// An entry.
fn entry(rows: &[Vec<Fix>], row: usize, column: usize) -> Fix
    requires row { row < length rows.now }
    requires small { length rows.now + 1 < 2 ^ 32 }
    requires column { column ≤ length rows.now }
    requires rows { All (IsRow (length rows.now + 1)) (items_of rows.now) }
    ensures { result ≡ slice_index_or (slice_index_or (items_of rows.now) row []) column (pos 0) }
{
    let entries = rows[row].as_slice();
    entries[column]
}

/// Writes an entry.
fn set_entry(rows: &mut [Vec<Fix>], row: usize, column: usize, v: Fix)
    requires row { row < length rows.old }
    requires small { length rows.old + 1 < 2 ^ 32 }
    requires column { column ≤ length rows.old }
    requires rows { All (IsRow (length rows.old + 1)) (items_of rows.old) }
    ensures written { items_of rows.new ≡ slice_set (items_of rows.old) row (slice_set (slice_index_or (items_of rows.old) row []) column v) }
    ensures rows { All (IsRow (length rows.old + 1)) (items_of rows.new) }
{
    // What is asked of the number is its range, for the proof.
    let _ = v.magnitude();
    let entries = rows[row].as_mut_slice();
    entries[column] = v;
}

/// A linear system: as many rows as unknowns, each with its coefficients and its right side.
#[derive(Drop)]
pub struct Rows {
    rows: Vec<Vec<Fix>>,
    unknowns: Vec<Fix>,
}

impl Model for Rows {
    ghost use Rattle.std.specs.Prelude.{ℤ, List};
    ghost use Rattle.lin_solve.specs.System.{rows_of, IsSystem};

    ghost Value = { List (List ℤ) };

    ghost view = { rows_of };

    ghost invariant = { IsSystem };
}

impl Rows {
    /// So many rows of zeros.
    pub fn new(alloc: Global, n: usize) -> Result<Rows, AllocError>
        ensures { IfOk result (λ rows. rows ≡ replicate n (replicate (n + 1) (pos 0))) }
    {
        if n >= 4_294_967_295 {
            return Err(AllocError);
        }
        let zero = Fix::exactly(0);
        let mut rows = Vec::new(alloc);
        for _row in 0..n {
            rows.push(vec![in alloc; zero; n + 1]?)?;
        }
        let unknowns = vec![in alloc; zero; n]?;
        Ok(Rows { rows, unknowns })
    }

    /// How many rows there are.
    pub fn len(&self) -> usize
        ensures { result ≡ length self.now }
    {
        self.rows.len()
    }

    /// An entry. The last column is the right side.
    pub fn get(&self, row: usize, column: usize) -> Fix
        requires row { row < length self.now }
        requires column { column ≤ length self.now }
        ensures { result ≡ slice_index_or (slice_index_or self.now row []) column (pos 0) }
    {
        entry(self.rows.as_slice(), row, column)
    }

    /// Writes an entry.
    pub fn set(&mut self, row: usize, column: usize, v: Fix)
        requires row { row < length self.old }
        requires column { column ≤ length self.old }
        ensures { self.new ≡ slice_set self.old row (slice_set (slice_index_or self.old row []) column v) }
    {
        set_entry(self.rows.as_mut_slice(), row, column, v);
    }
}

/// Solves the system. The rows are used up.
pub fn solve(rows: &mut Rows, out: &mut Point) -> Result<(), LinFault>
    requires { length out.old ≡ length rows.old }
    ensures answer { solution_of rows.old ≡ answer result out.new }
    ensures kept { OnErr result (out.new ≡ out.old) }
    ensures count { length rows.new ≡ length rows.old }
{
    solve_rows(rows.rows.as_mut_slice(), rows.unknowns.as_mut_slice())?;
    out.copy_from_slice(rows.unknowns.as_slice());
    Ok(())
}
