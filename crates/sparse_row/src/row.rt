//! A row that keeps its non-zero entries.
ghost use Rattle.std.specs.Prelude.{◌≡◌, ◌+◌, ◌<◌, ◌≤◌, ◌↔◌, length, pos, replicate, take, drop, slice_index_or, slice_set, IfOk, IsTrue};
ghost use Rattle.std.specs.List.{All};
ghost use Rattle.fix_core.specs.Fixed.{IsInRange};
ghost use Rattle.fix_core.specs.Passes.{answer};
ghost use Rattle.lin_solve.specs.Elimination.{largest, tenfold, minus_row, reduced, substituted};

use crate::entry::{Entry, is_behind, value_at, write};
use crate::front::{append_all, front};
use crate::passes::{append, merge};
use crate::products::{substitute, subtract};
use crate::scaling::{largest_before, raise};
use fix_core::{Fix, NumFault};
use std::alloc::{AllocError, Global};
use std::marker::Model;
use std::mem::swap;

/// A row of so many entries, of which those that aren't 0 are kept in the order of their columns. There is room for all.
#[derive(Drop)]
pub struct SparseRow {
    entries: Vec<Entry>,
    width: usize,
}

impl Model for SparseRow {
    ghost use Rattle.std.specs.Prelude.{ℤ, List};
    ghost use Rattle.sparse_row.specs.Row.{row_of, IsRow};

    ghost Value = { List ℤ };

    ghost view = { row_of };

    ghost invariant = { IsRow };
}

impl SparseRow {
    /// A row of so many zeros.
    #[tactic(auto, using(crate::proofs::Shapes::rows))]
    pub fn new(alloc: Global, width: usize) -> Result<SparseRow, AllocError>
        ensures { IfOk result (λ row. row ≡ replicate width (pos 0)) }
    {
        let entries = Vec::with_capacity(alloc, width)?;
        Ok(SparseRow { entries, width })
    }

    /// How many entries it has, the zeros too.
    #[tactic(auto, using(crate::proofs::Shapes::rows))]
    pub fn width(&self) -> usize
        ensures { result ≡ length self.now }
    {
        self.width
    }

    /// An entry.
    #[tactic(auto, using(crate::proofs::Shapes::rows))]
    pub fn get(&self, column: usize) -> Fix
        requires { column < length self.now }
        ensures { result ≡ slice_index_or self.now column (pos 0) }
    {
        value_at(self.entries.as_slice(), column)
    }

    /// Makes each entry 0.
    #[tactic(auto, using(crate::proofs::Shapes::rows))]
    pub fn clear(&mut self)
        ensures { self.new ≡ replicate (length self.old) (pos 0) }
    {
        self.entries.clear();
    }

    /// Writes an entry. One behind all others is appended.
    pub fn set(&mut self, column: usize, v: Fix)
        requires { column < length self.old }
        ensures { self.new ≡ slice_set self.old column v }
    {
        // What is asked of the number is its range, for the proof.
        let _ = v.magnitude();
        if is_behind(self.entries.as_slice(), column) {
            return append(&mut self.entries, column, v);
        }
        write(&mut self.entries, column, v);
    }
    /// Each entry loses `factor` times the pivot row's entry in the same column. What `spare` holds afterwards is left open.
    pub fn lose(
        &mut self,
        factor: Fix,
        pivot: &SparseRow,
        spare: &mut SparseRow,
    ) -> Result<(), NumFault>
        requires pivot { length pivot.now ≡ length self.old }
        requires spare { length spare.old ≡ length self.old }
        ensures answer { minus_row factor pivot.now self.old ≡ answer result self.new }
        ensures width { length self.new ≡ length self.old }
        ensures spare { length spare.new ≡ length self.old }
    {
        let width = self.width;
        if factor.magnitude() == 0 {
            return Ok(());
        }
        spare.entries.clear();
        let (pivot, row) = (pivot.entries.as_slice(), self.entries.as_slice());
        merge(factor, pivot, row, 0, width, &mut spare.entries)?;
        swap(&mut self.entries, &mut spare.entries);
        Ok(())
    }
    /// Takes the pivot row off, as often as clears the column. A row that has nothing in the column stays as it is.
    pub fn reduce(
        &mut self,
        pivot: &SparseRow,
        column: usize,
        spare: &mut SparseRow,
    ) -> Result<(), NumFault>
        requires column { column < length self.old }
        requires pivot { length pivot.now ≡ length self.old }
        requires spare { length spare.old ≡ length self.old }
        ensures answer { reduced column pivot.now self.old ≡ answer result self.new }
        ensures width { length self.new ≡ length self.old }
        ensures spare { length spare.new ≡ length self.old }
    {
        let factor = self.get(column).div(pivot.get(column))?;
        self.lose(factor, pivot, spare)
    }

    /// The largest magnitude in the columns before one.
    pub fn largest_before(&self, column: usize) -> u128
        requires { column ≤ length self.now }
        ensures { result ≡ largest (take column self.now) }
    {
        largest_before(self.entries.as_slice(), column)
    }

    /// Each entry times ten.
    pub fn raise(&mut self) -> Result<(), NumFault>
        ensures answer { tenfold self.old ≡ answer result self.new }
        ensures width { length self.new ≡ length self.old }
    {
        raise(self.entries.as_mut_slice())
    }

    /// A sum less each entry behind a column times the number of the entry's column, where there is one.
    pub fn substitute(&self, column: usize, sum: Fix, numbers: &[Fix]) -> Result<Fix, NumFault>
        requires column { column < length self.now }
        requires numbers { length numbers.now ≤ length self.now }
        ensures { result ≡ substituted sum (drop (column + 1) self.now) (drop (column + 1) numbers.now) }
    {
        // What is asked of the number is its range, for the proof.
        let _ = sum.magnitude();
        substitute(self.entries.as_slice(), column, sum, numbers)
    }

    /// Each number loses `factor` times the entry of its column.
    pub fn subtract(&self, factor: Fix, numbers: &mut [Fix]) -> Result<(), NumFault>
        requires width { length numbers.old ≡ length self.now }
        requires within { All IsInRange numbers.old }
        ensures answer { minus_row factor self.now numbers.old ≡ answer result numbers.new }
        ensures within { All IsInRange numbers.new }
    {
        subtract(self.entries.as_slice(), factor, numbers)
    }

    /// Whether another row begins with it.
    pub fn begins(&self, other: &SparseRow) -> bool
        requires { length self.now ≤ length other.now }
        ensures { IsTrue result ↔ (self.now ≡ take (length self.now) other.now) }
    {
        self.entries.as_slice() == front(other.entries.as_slice(), self.width)
    }

    /// Copies what another row begins with.
    pub fn copy_front(&mut self, other: &SparseRow)
        requires { length self.old ≤ length other.now }
        ensures { self.new ≡ take (length self.old) other.now }
    {
        let entries = front(other.entries.as_slice(), self.width);
        let own = &mut self.entries;
        own.clear();
        append_all(entries, own);
    }
}
