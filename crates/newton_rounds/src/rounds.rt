//! The rounds of Newton's method.
ghost use Rattle.std.specs.Prelude.{◌≡◌, length, IfOk, OnErr};
ghost use Rattle.fix_core.specs.Passes.{answer};
ghost use Rattle.design_meaning.specs.Newton.{newton, round};
ghost use Rattle.design_meaning.specs.Steps.{rounds};
ghost use Rattle.newton_rounds.specs.Rounds.{is_solution};
ghost use Rattle.newton_rounds.specs.Kept.{IsKeptFor};

use crate::causes::{cause, of_correction, of_evaluation, of_solution};
use crate::correction::{are_within, correct};
use crate::equation_set::EquationSet;
use ams_point::Point;
use fix_core::Fix;
use kept_rows::{Elimination, KeptElimination};
use message_codes::NO_CONVERGENCE;
use sparse_rows::SparseRows;
use std::alloc::{AllocError, Global};
use std::marker::Model;
use step_data::Cause;

/// The most rounds of a solution.
const ROUNDS: u32 = 20;

/// Newton's method, with the room that it takes. Contracts see for how many unknowns it is.
#[derive(Drop)]
pub struct Newton {
    rows: SparseRows,
    elimination: KeptElimination,
    corrections: Point,
    residuals: Vec<Fix>,
}

impl Model for Newton {
    ghost use Rattle.std.specs.Prelude.{ℕ, length};
    ghost use Rattle.newton_rounds.specs.Room.{HasRoom};

    ghost Value = { ℕ };

    ghost view = { λ a. length a.rows };

    ghost invariant = { λ a. HasRoom (length a.rows) a.elimination a.corrections a.residuals.items };
}

impl Newton {
    /// For sets of so many unknowns.
    pub fn new(alloc: Global, n: usize) -> Result<Newton, AllocError>
        ensures { IfOk result (λ newton. newton ≡ n) }
    {
        let rows = SparseRows::new(alloc, n)?;
        let elimination = KeptElimination::new(alloc, n)?;
        let corrections = Point::new(alloc, n)?;
        let residuals = vec![in alloc; Fix::exactly(0); n]?;
        Ok(Newton {
            rows,
            elimination,
            corrections,
            residuals,
        })
    }

    /// How many unknowns a set has.
    pub fn len(&self) -> usize
        ensures { result ≡ self.now }
    {
        self.rows.len()
    }

    /// One round: the linear system at the point, and the point less its solution. Where it is refused, nothing is said of
    /// the point but its length.
    fn round<S: EquationSet>(&mut self, set: &S, x: &mut Point) -> Result<(), Cause>
        requires size { self.old ≡ length (S.problem set.now).unknowns }
        requires point { length x.old ≡ length (S.problem set.now).unknowns }
        ensures answer { round (S.problem set.now) x.old ≡ answer result x.new }
        ensures length { length x.new ≡ length x.old }
        ensures size { self.new ≡ self.old }
    {
        of_evaluation(set.fill(x, &mut self.rows))?;
        of_solution(
            self.elimination
                .solve(&mut self.rows, &mut self.corrections),
        )?;
        of_correction(correct(x, &self.corrections))
    }

    /// All residuals at a point are within the tolerance.
    fn is_solution<S: EquationSet>(&mut self, set: &S, x: &Point) -> Result<bool, Cause>
        requires size { self.old ≡ length (S.problem set.now).unknowns }
        requires point { length x.now ≡ length (S.problem set.now).unknowns }
        ensures answer { result ≡ is_solution (S.problem set.now) x.now }
        ensures size { self.new ≡ self.old }
    {
        of_evaluation(set.residuals(x, self.residuals.as_mut_slice()))?;
        Ok(are_within(self.residuals.as_slice(), set.tolerance()))
    }

    /// Rounds from a point until it is a solution.
    fn iterate<S: EquationSet>(&mut self, set: &S, x: &mut Point) -> Result<(), Cause>
        requires size { self.old ≡ length (S.problem set.now).unknowns }
        requires point { length x.old ≡ length (S.problem set.now).unknowns }
        ensures answer { newton rounds (S.problem set.now) x.old ≡ answer result x.new }
        ensures length { length x.new ≡ length x.old }
        ensures size { self.new ≡ self.old }
    {
        for _round in 0..ROUNDS {
            self.round(set, x)?;
            if self.is_solution(set, x)? {
                return Ok(());
            }
        }
        Err(cause(NO_CONVERGENCE))
    }

    /// The solution of a set that Newton's method finds from a point in at most 20 rounds. Where it is refused, `out` is
    /// that point, and the cause is that of the definition: an evaluation's fault, a singular system with its column, an
    /// overflow of the linear system or of a correction, or no convergence.
    pub fn solve<S: EquationSet>(
        &mut self,
        set: &S,
        from: &Point,
        out: &mut Point,
    ) -> Result<(), Cause>
        requires size { self.old ≡ length (S.problem set.now).unknowns }
        requires from { length from.now ≡ length (S.problem set.now).unknowns }
        requires room { length out.old ≡ length (S.problem set.now).unknowns }
        ensures answer { newton rounds (S.problem set.now) from.now ≡ answer result out.new }
        ensures kept { OnErr result (out.new ≡ from.now) }
        ensures length { length out.new ≡ length from.now }
        ensures size { self.new ≡ self.old }
    {
        out.copy_from(from);
        let solved = self.iterate(set, out);
        if solved.is_err() {
            out.copy_from(from);
        }
        solved
    }

    /// One round by the kept elimination of the set's coefficients. Where it is refused, nothing is said of the point but its
    /// length.
    fn round_kept<S: EquationSet>(
        &mut self,
        set: &S,
        elimination: &Elimination,
        x: &mut Point,
    ) -> Result<(), Cause>
        requires size { self.old ≡ length (S.problem set.now).unknowns }
        requires point { length x.old ≡ length (S.problem set.now).unknowns }
        requires kept { IsKeptFor (S.problem set.now) elimination.now }
        ensures answer { round (S.problem set.now) x.old ≡ answer result x.new }
        ensures length { length x.new ≡ length x.old }
        ensures size { self.new ≡ self.old }
    {
        let numbers = self.residuals.as_mut_slice();
        of_evaluation(set.residuals(x, numbers))?;
        of_solution(elimination.unknowns(numbers))?;
        self.corrections.copy_from_slice(numbers);
        of_correction(correct(x, &self.corrections))
    }

    /// Rounds from a point until it is a solution, by the kept elimination of the set's coefficients.
    fn iterate_kept<S: EquationSet>(
        &mut self,
        set: &S,
        elimination: &Elimination,
        x: &mut Point,
    ) -> Result<(), Cause>
        requires size { self.old ≡ length (S.problem set.now).unknowns }
        requires point { length x.old ≡ length (S.problem set.now).unknowns }
        requires kept { IsKeptFor (S.problem set.now) elimination.now }
        ensures answer { newton rounds (S.problem set.now) x.old ≡ answer result x.new }
        ensures length { length x.new ≡ length x.old }
        ensures size { self.new ≡ self.old }
    {
        for _round in 0..ROUNDS {
            self.round_kept(set, elimination, x)?;
            if self.is_solution(set, x)? {
                return Ok(());
            }
        }
        Err(cause(NO_CONVERGENCE))
    }

    /// The same solution, by the kept elimination of the set's coefficients: no row is filled.
    pub fn solve_kept<S: EquationSet>(
        &mut self,
        set: &S,
        elimination: &Elimination,
        from: &Point,
        out: &mut Point,
    ) -> Result<(), Cause>
        requires size { self.old ≡ length (S.problem set.now).unknowns }
        requires from { length from.now ≡ length (S.problem set.now).unknowns }
        requires room { length out.old ≡ length (S.problem set.now).unknowns }
        requires kept { IsKeptFor (S.problem set.now) elimination.now }
        ensures answer { newton rounds (S.problem set.now) from.now ≡ answer result out.new }
        ensures kept { OnErr result (out.new ≡ from.now) }
        ensures length { length out.new ≡ length from.now }
        ensures size { self.new ≡ self.old }
    {
        out.copy_from(from);
        let solved = self.iterate_kept(set, elimination, out);
        if solved.is_err() {
            out.copy_from(from);
        }
        solved
    }
}
