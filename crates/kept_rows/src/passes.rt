//! Right sides through the columns, and back.
ghost use Rattle.std.specs.Prelude.{◌≡◌, ◌+◌, ◌^◌, ◌<◌, length, take, drop};
ghost use Rattle.std.specs.List.{All};
ghost use Rattle.fix_core.specs.Fixed.{IsInRange};
ghost use Rattle.fix_core.specs.Passes.{answer};
ghost use Rattle.kept_elimination.specs.Kept.{passed, back_from, solved};
ghost use Rattle.kept_elimination.specs.Shape.{Passes, Ends};
ghost use Rattle.kept_rows.specs.Held.{kept_columns, Divides};

use crate::column::Column;
use crate::turns::raise_all;
use fix_core::{Fix, NumFault};
use lin_solve::LinFault;

/// Takes the right sides through the columns: what is left is those of the pivot rows, in order.
fn pass(columns: &[Column], numbers: &mut [Fix]) -> Result<(), NumFault>
    requires count { length columns.now ≡ length numbers.old }
    requires shape { Passes (kept_columns columns.now) }
    requires within { All IsInRange numbers.old }
    ensures { passed (kept_columns columns.now) numbers.old ≡ answer result numbers.new }
{
    if numbers.is_empty() {
        return Ok(());
    }
    let column = &columns[0];
    numbers.swap(0, column.place);
    let (front, others) = numbers.split_at_mut(1);
    column.factors.subtract(front[0], others)?;
    pass(&columns[1..], others)
}

/// Finds the unknowns from a column on, the last one first, from the right sides of the pivot rows.
fn back(columns: &[Column], numbers: &mut [Fix], at: usize) -> Result<(), NumFault>
    requires small { length numbers.old < 2 ^ 32 }
    requires count { at + length columns.now ≡ length numbers.old }
    requires shape { Ends at (kept_columns columns.now) }
    requires quotients { Divides at columns.now }
    ensures answer { back_from at (kept_columns columns.now) (drop at numbers.old) ≡ answer result (drop at numbers.new) }
    ensures front { take at numbers.new ≡ take at numbers.old }
{
    if columns.is_empty() {
        return Ok(());
    }
    back(&columns[1..], numbers, at + 1)?;
    let column = &columns[0];
    let left = column.pivot.substitute(at, numbers[at], numbers)?;
    numbers[at] = column.quotient.times(left)?;
    Ok(())
}

/// Gives the unknowns for right sides, in their place, from how often each row is scaled and from the columns.
#[tactic(auto, using(crate::proofs::Passing::ends))]
pub fn solve_by(turns: &[u32], columns: &[Column], numbers: &mut [Fix]) -> Result<(), LinFault>
    requires small { length numbers.old < 2 ^ 32 }
    requires turns { length turns.now ≡ length numbers.old }
    requires columns { length columns.now ≡ length numbers.old }
    requires passes { Passes (kept_columns columns.now) }
    requires ends { Ends 0 (kept_columns columns.now) }
    requires quotients { Divides 0 columns.now }
    requires within { All IsInRange numbers.old }
    ensures { solved (record { turns = turns.now; columns = kept_columns columns.now }) numbers.old ≡ answer result numbers.new }
{
    let Ok(()) = raise_all(turns, numbers) else {
        return Err(LinFault::Overflow);
    };
    let Ok(()) = pass(columns, numbers) else {
        return Err(LinFault::Overflow);
    };
    let Ok(()) = back(columns, numbers, 0) else {
        return Err(LinFault::Overflow);
    };
    Ok(())
}
