//! The elimination that serves a system.
ghost use Rattle.std.specs.Prelude.{◌≡◌, ◌+◌, ◌<◌, length, IfSome, IsTrue};
ghost use Rattle.std.specs.List.{All};
ghost use Rattle.fix_core.specs.Passes.{answer};
ghost use Rattle.lin_solve.specs.Elimination.{solution_of};
ghost use Rattle.kept_rows.specs.Sound.{AreSound, IsReady};

use crate::elimination::Elimination;
use crate::matrix::copy_right_sides;
use fix_core::Fix;
use lin_solve::LinFault;
use sparse_row::SparseRow;

/// The place of the elimination of the rows' coefficients.
fn place_of(eliminations: &[Elimination], rows: &[SparseRow]) -> Option<usize>
    requires sound { AreSound (length rows.now) eliminations.now }
    requires rows { All (λ row. length row ≡ length rows.now + 1) rows.now }
    ensures { IfSome result (λ place. place < length eliminations.now) }
{
    for i in 0..eliminations.len() {
        if eliminations[i].is_for(rows) {
            return Some(i);
        }
    }
    None
}

/// The place whose turn it is to give way.
fn take_turn(turn: &mut usize, count: usize) -> usize
    requires { 0 < count }
    ensures { result < count }
{
    let place = *turn % count;
    *turn = place + 1;
    place
}

/// The place of the elimination of the rows' coefficients, or of one that gives way.
fn place_for(eliminations: &[Elimination], turn: &mut usize, rows: &[SparseRow]) -> usize
    requires sound { AreSound (length rows.now) eliminations.now }
    requires rows { All (λ row. length row ≡ length rows.now + 1) rows.now }
    ensures { result < length eliminations.now }
{
    match place_of(eliminations, rows) {
        Some(place) => place,
        None => take_turn(turn, eliminations.len()),
    }
}

/// Sees that the elimination of the rows' coefficients is the first. None is where these have none.
pub fn bring_first(eliminations: &mut [Elimination], turn: &mut usize, rows: &[SparseRow]) -> bool
    requires sound { AreSound (length rows.now) eliminations.old }
    requires rows { All (λ row. length row ≡ length rows.now + 1) rows.now }
    ensures sound { AreSound (length rows.now) eliminations.new }
    ensures first { IsTrue result → IsReady rows.now eliminations.new }
{
    if eliminations[0].is_for(rows) {
        return true;
    }
    let place = place_for(eliminations, turn, rows);
    eliminations.swap(0, place);
    eliminations[0].prepare(rows)
}

/// Gives the unknowns of rows by the first elimination, which is that of their coefficients.
pub fn solve_first(
    eliminations: &[Elimination],
    rows: &[SparseRow],
    numbers: &mut [Fix],
) -> Result<(), LinFault>
    requires sound { AreSound (length rows.now) eliminations.now }
    requires rows { All (λ row. length row ≡ length rows.now + 1) rows.now }
    requires ready { IsReady rows.now eliminations.now }
    requires count { length numbers.old ≡ length rows.now }
    ensures { solution_of rows.now ≡ answer result numbers.new }
{
    copy_right_sides(rows, numbers);
    eliminations[0].solve(numbers)
}
