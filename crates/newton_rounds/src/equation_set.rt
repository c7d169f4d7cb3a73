//! What Newton's method asks of an equation set.
ghost use Rattle.std.specs.Prelude.{◌≡◌, length};
ghost use Rattle.fix_core.specs.Passes.{each, answer};
ghost use Rattle.design_meaning.specs.Newton.{Problem, linear_row, residuals_of};

use ams_point::Point;
use design_meaning::EvalFault;
use fix_core::Fix;
use sparse_rows::SparseRows;

/// The equations that hold together at one time: the explicit and the structural set with one augmentation set
/// (IEEE 1076.1). There are as many as unknowns. No call takes memory.
pub trait EquationSet {
    /// The equations and the unknowns in order, what is read at a point, and the tolerance.
    ghost problem: { Self → Problem };

    /// The greatest magnitude of a residual at a solution, in units of 10^-12.
    fn tolerance(&self) -> u64
        ensures { result ≡ (problem self.now).tol };

    /// Writes the linear system of a round at a point, of each equation in order the slopes by the unknowns and the
    /// residual, or answers the first fault.
    fn fill(&self, x: &Point, rows: &mut SparseRows) -> Result<(), EvalFault>
        requires point { length x.now ≡ length (problem self.now).unknowns }
        requires size { length rows.old ≡ length (problem self.now).unknowns }
        ensures answer { each (linear_row (problem self.now).unknowns ((problem self.now).reads x.now)) (problem self.now).rows ≡ answer result rows.new }
        ensures count { length rows.new ≡ length rows.old };

    /// Writes the residuals at a point, of each equation in order, or answers the first fault.
    fn residuals(&self, x: &Point, out: &mut [Fix]) -> Result<(), EvalFault>
        requires point { length x.now ≡ length (problem self.now).unknowns }
        requires room { length out.old ≡ length (problem self.now).unknowns }
        ensures { residuals_of (problem self.now).rows ((problem self.now).reads x.now) ≡ answer result out.new };
}
