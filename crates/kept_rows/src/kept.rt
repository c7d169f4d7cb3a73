//! Solving with the eliminations that are kept.
ghost use Rattle.std.specs.Prelude.{◌≡◌, ◌<◌, length, IfOk, OnErr};
ghost use Rattle.fix_core.specs.Passes.{answer};
ghost use Rattle.lin_solve.specs.Elimination.{solution_of};
ghost use Rattle.kept_rows.specs.Sound.{AreSound};

use crate::choice::{bring_first, solve_first};
use crate::elimination::Elimination;
use ams_point::Point;
use fix_core::Fix;
use lin_solve::LinFault;
use sparse_rows::SparseRows;
use std::alloc::{AllocError, Global};
use std::marker::Model;

/// The eliminations of the last coefficients. Contracts see how many rows they are for.
#[derive(Drop)]
pub struct KeptElimination {
    eliminations: Vec<Elimination>,
    /// Which one gives way next.
    turn: usize,
    numbers: Vec<Fix>,
}

impl Model for KeptElimination {
    ghost use Rattle.std.specs.Prelude.{◌≡◌, ℕ, length};
    ghost use Rattle.kept_rows.specs.Sound.{AreSound};

    ghost Value = { ℕ };

    ghost view = { λ a. length a.numbers.items };

    ghost invariant = { λ a. AreSound (length a.numbers.items) a.eliminations.items };
}

/// How many eliminations of so many rows are kept: there is room for full rows in each.
fn kept_count(n: usize) -> usize
    ensures { 0 < result }
{
    match n {
        0..=128 => 16,
        129..=256 => 8,
        257..=512 => 2,
        _ => 1,
    }
}

/// Room for so many eliminations of so many rows.
fn eliminations(alloc: Global, n: usize, count: usize) -> Result<Vec<Elimination>, AllocError>
    requires { 0 < count }
    ensures { IfOk result (λ all. AreSound n all.items) }
{
    let mut all = Vec::new(alloc);
    for _place in 0..count {
        all.push(Elimination::new(alloc, n)?)?;
    }
    Ok(all)
}

impl KeptElimination {
    /// For systems of so many rows.
    pub fn new(alloc: Global, n: usize) -> Result<KeptElimination, AllocError>
        ensures { IfOk result (λ kept. kept ≡ n) }
    {
        let eliminations = eliminations(alloc, n, kept_count(n))?;
        let numbers = vec![in alloc; Fix::exactly(0); n]?;
        Ok(KeptElimination {
            eliminations,
            turn: 0,
            numbers,
        })
    }

    /// How many rows a system has.
    pub fn len(&self) -> usize
        ensures { result ≡ self.now }
    {
        self.numbers.len()
    }

    /// Solves the system. Where its coefficients are among the kept ones, only the right sides go through their
    /// elimination. The rows are used up.
    pub fn solve(&mut self, rows: &mut SparseRows, out: &mut Point) -> Result<(), LinFault>
        requires size { length rows.old ≡ self.old }
        requires out { length out.old ≡ length rows.old }
        ensures answer { solution_of rows.old ≡ answer result out.new }
        ensures kept { OnErr result (out.new ≡ out.old) }
        ensures count { length rows.new ≡ length rows.old }
        ensures size { self.new ≡ self.old }
    {
        let eliminations = self.eliminations.as_mut_slice();
        if !bring_first(eliminations, &mut self.turn, rows.rows()) {
            return rows.solve(out);
        }
        let numbers = self.numbers.as_mut_slice();
        solve_first(eliminations, rows.rows(), numbers)?;
        out.copy_from_slice(numbers);
        Ok(())
    }
}
