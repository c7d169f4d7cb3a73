//! Powers.
ghost use Rattle.std.specs.Prelude.{◌≡◌, ◌≤◌, unsigned_abs};
ghost use Rattle.ams_value.specs.Ranges.{most_integer};
ghost use Rattle.ams_value.specs.Types.{Fit, power_type};
ghost use Rattle.ams_value.specs.Values.{integer_product, integer_powers, integer_result, real_powers, real_result, power_value};

use crate::arithmetic::real;
use crate::fault::ValFault;
use crate::val::{MOST_INTEGER, Val};
use fix_core::{Fix, NumFault, UNITS_PER_ONE};

/// The greatest exponent.
const MOST_EXPONENT: i32 = 64;

/// The product of two integers, where it is one.
#[tactic(auto, using(crate::proofs::Powers::products))]
fn product(a: i32, b: i32) -> Result<i32, ValFault>
    ensures { result ≡ integer_product a b }
{
    match a.checked_mul(b) {
        Some(product) if product.unsigned_abs() <= MOST_INTEGER => Ok(product),
        _ => Err(ValFault::Overflow),
    }
}

/// An integer to the n-th power, by products from the left.
#[tactic(auto, using(crate::proofs::Powers::integers))]
fn integer_power(a: i32, n: u32) -> Result<i32, ValFault>
    requires { unsigned_abs a ≤ most_integer }
    ensures { result ≡ integer_powers a n }
{
    if n == 0 {
        return Ok(1);
    }
    let mut power = a;
    for done in 1..n {
        match product(power, a) {
            Ok(next) => power = next,
            Err(fault) => return Err(fault),
        }
    }
    Ok(power)
}

/// A number to the n-th power, by products from the left, each rounded.
#[tactic(auto, using(crate::proofs::Powers::reals))]
pub fn real_power(a: Fix, n: u32) -> Result<Fix, NumFault>
    ensures { result ≡ real_powers a n }
{
    if n == 0 {
        return Ok(Fix::exactly(UNITS_PER_ONE as i128));
    }
    let mut power = a;
    for done in 1..n {
        match power.mul(a) {
            Ok(next) => power = next,
            Err(fault) => return Err(fault),
        }
    }
    Ok(power)
}

/// An integer as a result.
fn integer(number: Result<i32, ValFault>) -> Result<Val, ValFault>
    ensures { result ≡ integer_result number }
{
    match number {
        Ok(number) => Ok(Val::Int(number)),
        Err(fault) => Err(fault),
    }
}

/// A number to the power of an exponent from 0 to `MOST_EXPONENT`.
#[tactic(auto, using(crate::proofs::Powers::exponents))]
pub fn power(a: Val, b: Val) -> Result<Val, ValFault>
    requires { Fit power_type a b }
    ensures { result ≡ power_value a b }
{
    match b {
        Val::Int(n) => {
            if n < 0 || n > MOST_EXPONENT {
                return Err(ValFault::Range);
            }
            match a {
                Val::Int(a) => integer(integer_power(a, n.unsigned_abs())),
                Val::Real(a) => real(real_power(a, n.unsigned_abs())),
                _ => Err(ValFault::Range),
            }
        }
        _ => Err(ValFault::Range),
    }
}
