//! Conversions between INTEGER and REAL.
ghost use Rattle.std.specs.Prelude.{◌≡◌};
ghost use Rattle.ams_value.specs.Values.{real_of, integer_of};

use crate::fault::ValFault;
use crate::val::MOST_INTEGER;
use fix_core::{Fix, UNITS_PER_ONE, round_quotient};

/// The units of 1.0.
const ONE: i128 = UNITS_PER_ONE as i128;

/// `real(i)`.
#[tactic(auto, using(crate::proofs::Times::reals))]
pub fn real_from_integer(i: i32) -> Fix
    ensures { result ≡ real_of i }
{
    Fix::exactly(i128::from(i) * ONE)
}

/// `integer(r)`: the nearest integer, halves away from 0.
#[tactic(auto, using(crate::proofs::Times::reals))]
pub fn integer_from_real(r: Fix) -> Result<i32, ValFault>
    ensures { result ≡ integer_of r }
{
    let nearest = round_quotient(r.units(), ONE);
    if nearest.unsigned_abs() <= u128::from(MOST_INTEGER) {
        Ok(nearest as i32)
    } else {
        Err(ValFault::Range)
    }
}
