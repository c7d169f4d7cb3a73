//! A system of rows that keep their non-zero entries.
ghost use Rattle.std.specs.Prelude.{◌≡◌, ◌+◌, ◌<◌, ◌≤◌, [], length, pos, map, replicate, slice_index_or, slice_set, IfOk, OnErr};
ghost use Rattle.std.specs.List.{All};
ghost use Rattle.fix_core.specs.Passes.{answer};
ghost use Rattle.lin_solve.specs.Elimination.{solution_of};

use crate::elimination::solve_rows;
use ams_point::Point;
use fix_core::Fix;
use lin_solve::LinFault;
use sparse_row::SparseRow;
use std::alloc::{AllocError, Global};
use std::marker::Model;

/// A linear system: as many rows as unknowns, each with its coefficients and its right side.
#[derive(Drop)]
pub struct SparseRows {
    rows: Vec<SparseRow>,
    unknowns: Vec<Fix>,
    spare: SparseRow,
}

impl Model for SparseRows {
    ghost use Rattle.std.specs.Prelude.{ℤ, List};
    ghost use Rattle.sparse_rows.specs.System.{rows_of, IsSystem};

    ghost Value = { List (List ℤ) };

    ghost view = { rows_of };

    ghost invariant = { IsSystem };
}

impl SparseRows {
    /// So many rows of zeros.
    pub fn new(alloc: Global, n: usize) -> Result<SparseRows, AllocError>
        ensures { IfOk result (λ rows. rows ≡ replicate n (replicate (n + 1) (pos 0))) }
    {
        if n >= 4_294_967_295 {
            return Err(AllocError);
        }
        let mut rows = Vec::new(alloc);
        for _row in 0..n {
            rows.push(SparseRow::new(alloc, n + 1)?)?;
        }
        let unknowns = vec![in alloc; Fix::exactly(0); n]?;
        let spare = SparseRow::new(alloc, n + 1)?;
        Ok(SparseRows {
            rows,
            unknowns,
            spare,
        })
    }

    /// How many rows there are.
    pub fn len(&self) -> usize
        ensures { result ≡ length self.now }
    {
        self.rows.len()
    }

    /// An entry. The last column is the right side.
    pub fn get(&self, row: usize, column: usize) -> Fix
        requires row { row < length self.now }
        requires column { column ≤ length self.now }
        ensures { result ≡ slice_index_or (slice_index_or self.now row []) column (pos 0) }
    {
        self.rows[row].get(column)
    }

    /// Writes an entry.
    pub fn set(&mut self, row: usize, column: usize, v: Fix)
        requires row { row < length self.old }
        requires column { column ≤ length self.old }
        ensures { self.new ≡ slice_set self.old row (slice_set (slice_index_or self.old row []) column v) }
    {
        self.rows[row].set(column, v);
    }

    /// Makes each entry of a row 0.
    pub fn clear(&mut self, row: usize)
        requires { row < length self.old }
        ensures { self.new ≡ slice_set self.old row (replicate (length self.old + 1) (pos 0)) }
    {
        self.rows[row].clear();
    }

    /// The rows.
    pub fn rows(&self) -> &[SparseRow]
        ensures rows { result.now ≡ self.now }
        ensures widths { All (λ row. length row ≡ length self.now + 1) self.now }
    {
        self.rows.as_slice()
    }

    /// Solves the system. The rows are used up.
    pub fn solve(&mut self, out: &mut Point) -> Result<(), LinFault>
        requires { length out.old ≡ length self.old }
        ensures answer { solution_of self.old ≡ answer result out.new }
        ensures kept { OnErr result (out.new ≡ out.old) }
        ensures count { length self.new ≡ length self.old }
    {
        solve_rows(
            self.rows.as_mut_slice(),
            self.unknowns.as_mut_slice(),
            &mut self.spare,
        )?;
        out.copy_from_slice(self.unknowns.as_slice());
        Ok(())
    }
}
