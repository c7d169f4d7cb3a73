//! The error of a step.
ghost use Rattle.std.specs.Prelude.{◌≡◌, ◌≤◌, ◌*◌, ◌-ℤ◌, ℤ, List, length, unsigned_abs};
ghost use Rattle.fix_core.specs.Units.{most_units, units_per_one};
ghost use Rattle.fix_core.specs.Rounding.{nearest};
ghost use Rattle.design_meaning.specs.Steps.{step_error, landed};
ghost use Rattle.step_parts.specs.Changes.{largest_change};
ghost use Rattle.step_parts.specs.Judged.{landed_by};

use fix_core::{Fix, UNITS_PER_ONE};
use message_codes::ERROR_TOO_LARGE;
use step_data::Cause;

/// The units of 2.0.
const UNITS_PER_TWO: u128 = 2 * UNITS_PER_ONE;

/// How far a value is from the one before, in units of 10^-12.
fn change(before: Fix, after: Fix) -> u128
    ensures value { result ≡ unsigned_abs (after -ℤ before) }
    ensures bound { result ≤ 2 * most_units }
{
    (after.units() - before.units()).unsigned_abs()
}

/// The greatest change of a value, 0 where there is none.
fn largest_change(before: &[Fix], after: &[Fix]) -> u128
    requires { length before.now ≡ length after.now }
    ensures value { result ≡ largest_change before.now after.now }
    ensures bound { result ≤ 2 * most_units }
{
    let mut largest = 0;
    let mut i = before.len();
    while i > 0 {
        i -= 1;
        largest = change(before[i], after[i]).max(largest);
    }
    largest
}

/// A product of two numbers in units, over 2.0 and rounded.
#[tactic(auto, unfolding(fix_core::specs::Rounding::nearest))]
fn halved(product: u128) -> u128
    requires { product ≤ 2000000000000000000000000000000000000 }
    ensures { result ≡ nearest product (2 * units_per_one) }
{
    (2 * product + UNITS_PER_TWO) / (2 * UNITS_PER_TWO)
}

/// The error of a step of so many ticks, in units of 10^-12: half the step times the greatest change of a dot, rounded. One
/// division gives it, since rounding keeps the order.
pub fn step_error(s: u64, before: &[Fix], after: &[Fix]) -> u128
    requires step { s ≤ 1000000000000 }
    requires count { length before.now ≡ length after.now }
    ensures { result ≡ step_error s before.now after.now }
{
    let product = u128::from(s) * largest_change(before, after);
    halved(product)
}

/// A step whose error is above the limit is refused. Both are in units of 10^-12.
pub fn judge_error(limit: u64, err: u128) -> Result<(), Cause>
    ensures { (x : List ℤ) → landed limit err x ≡ landed_by result x err }
{
    if err <= u128::from(limit) {
        Ok(())
    } else {
        Err(Cause {
            code: ERROR_TOO_LARGE,
            column: 0,
        })
    }
}
