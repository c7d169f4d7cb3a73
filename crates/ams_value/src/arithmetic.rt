//! Arithmetic on integers, reals and times.
ghost use Rattle.std.specs.Prelude.{◌≡◌, ◌<◌, ◌≤◌, ◌*ℤ◌, unsigned_abs};
ghost use Rattle.fix_core.specs.Units.{most_ticks};
ghost use Rattle.ams_value.specs.Ranges.{most_integer};
ghost use Rattle.ams_value.specs.Types.{Fit, sum_type, product_type, quotient_type, remainder_type, power_type};
ghost use Rattle.ams_value.specs.Values.{integer_ranged, time_ranged, real_result, fault_of, sum_value, difference_value, time_by_real, time_over_real, time_quotient, product_value, quotient_value, modulus_value, remainder_value, integer_quotient, integer_modulus, integer_remainder};

use crate::fault::ValFault;
use crate::val::{MOST_INTEGER, Val};
use fix_core::{Fix, MOST_TICKS, NumFault, UNITS_PER_ONE, round_quotient};

/// The units of 1.0.
const ONE: i128 = UNITS_PER_ONE as i128;

/// The least product of ticks by units whose quotient by `ONE` is surely past the range of TIME.
const PRODUCT_END: u128 = 2 * MOST_TICKS as u128 * UNITS_PER_ONE;

/// An integer as a result, where it is in the range of INTEGER.
#[tactic(auto, unfolding(crate::specs::Values::integer_ranged))]
fn integer(z: i64) -> Result<Val, ValFault>
    ensures { result ≡ integer_ranged z }
{
    if z.unsigned_abs() <= u64::from(MOST_INTEGER) {
        Ok(Val::Int(z as i32))
    } else {
        Err(ValFault::Overflow)
    }
}

/// Ticks as a result, where they are in the range of TIME.
#[tactic(auto, unfolding(crate::specs::Values::time_ranged))]
fn time(z: i128) -> Result<Val, ValFault>
    ensures { result ≡ time_ranged z }
{
    if z.unsigned_abs() <= u128::from(MOST_TICKS) {
        Ok(Val::Time(z as i64))
    } else {
        Err(ValFault::Overflow)
    }
}

/// A number as a result, and its fault as that of an operator.
pub fn real(number: Result<Fix, NumFault>) -> Result<Val, ValFault>
    ensures { result ≡ real_result number }
{
    match number {
        Ok(number) => Ok(Val::Real(number)),
        Err(NumFault::Overflow) => Err(ValFault::Overflow),
        Err(NumFault::DivideByZero) => Err(ValFault::DivideByZero),
        Err(NumFault::Domain) => Err(ValFault::Range),
    }
}

/// The sum.
#[tactic(auto, unfolding(crate::specs::Values::sum_value))]
pub fn add(a: Val, b: Val) -> Result<Val, ValFault>
    requires { Fit sum_type a b }
    ensures { result ≡ sum_value a b }
{
    match a {
        Val::Int(a) => match b {
            Val::Int(b) => integer(i64::from(a) + i64::from(b)),
            _ => Err(ValFault::Range),
        },
        Val::Real(a) => match b {
            Val::Real(b) => real(a.add(b)),
            _ => Err(ValFault::Range),
        },
        Val::Time(a) => match b {
            Val::Time(b) => time(i128::from(a) + i128::from(b)),
            _ => Err(ValFault::Range),
        },
        _ => Err(ValFault::Range),
    }
}

/// The difference.
#[tactic(auto, unfolding(crate::specs::Values::difference_value))]
pub fn subtract(a: Val, b: Val) -> Result<Val, ValFault>
    requires { Fit sum_type a b }
    ensures { result ≡ difference_value a b }
{
    match a {
        Val::Int(a) => match b {
            Val::Int(b) => integer(i64::from(a) - i64::from(b)),
            _ => Err(ValFault::Range),
        },
        Val::Real(a) => match b {
            Val::Real(b) => real(a.sub(b)),
            _ => Err(ValFault::Range),
        },
        Val::Time(a) => match b {
            Val::Time(b) => time(i128::from(a) - i128::from(b)),
            _ => Err(ValFault::Range),
        },
        _ => Err(ValFault::Range),
    }
}

/// Ticks times a real, rounded to the nearest tick.
#[tactic(auto, using(crate::proofs::Times::products))]
fn scaled_time(t: i64, r: Fix) -> Result<Val, ValFault>
    requires { unsigned_abs t ≤ most_ticks }
    ensures { result ≡ time_by_real t r }
{
    match i128::from(t).checked_mul(r.units()) {
        Some(product) if product.unsigned_abs() <= PRODUCT_END => {
            time(round_quotient(product, ONE))
        }
        _ => Err(ValFault::Overflow),
    }
}

/// Ticks over a real, rounded to the nearest tick.
#[tactic(auto, using(crate::proofs::Times::quotients))]
fn divided_time(t: i64, r: Fix) -> Result<Val, ValFault>
    requires { unsigned_abs t ≤ most_ticks }
    ensures { result ≡ time_over_real t r }
{
    if r.units() == 0 {
        return Err(ValFault::DivideByZero);
    }
    time(round_quotient(i128::from(t) * ONE, r.units()))
}

/// The quotient of two integers or two times, rounded towards 0.
#[tactic(auto, using(crate::proofs::Times::integers))]
fn whole_quotient(a: i64, b: i64) -> Result<Val, ValFault>
    requires { unsigned_abs a < 9223372036854775808 }
    ensures { result ≡ integer_quotient a b }
{
    if b == 0 {
        return Err(ValFault::DivideByZero);
    }
    integer(a / b)
}

/// What is left beside a multiple of `b`, with the sign of `b`.
#[tactic(auto, using(crate::proofs::Times::integers))]
fn whole_modulus(a: i64, b: i64) -> Result<Val, ValFault>
    requires left { unsigned_abs a ≤ most_integer }
    requires right { unsigned_abs b ≤ most_integer }
    ensures { result ≡ integer_modulus a b }
{
    if b == 0 {
        return Err(ValFault::DivideByZero);
    }
    if b > 0 {
        integer(a.rem_euclid(b))
    } else {
        integer(-(-a).rem_euclid(b))
    }
}

/// What is left beside a multiple of `b`, with the sign of `a`.
#[tactic(auto, using(crate::proofs::Times::integers))]
fn whole_remainder(a: i64, b: i64) -> Result<Val, ValFault>
    requires { unsigned_abs a < 9223372036854775808 }
    ensures { result ≡ integer_remainder a b }
{
    if b == 0 {
        return Err(ValFault::DivideByZero);
    }
    integer(a % b)
}

/// A time over an integer, rounded towards 0.
#[tactic(auto, using(crate::proofs::Times::integers))]
fn parted_time(t: i64, i: i64) -> Result<Val, ValFault>
    requires { unsigned_abs t < 9223372036854775808 }
    ensures { result ≡ time_quotient t i }
{
    if i == 0 {
        return Err(ValFault::DivideByZero);
    }
    time(i128::from(t / i))
}

/// A time an integer number of times.
fn repeated_time(t: i64, i: i32) -> Result<Val, ValFault>
    requires time { unsigned_abs t ≤ most_ticks }
    requires factor { unsigned_abs i ≤ 2147483648 }
    ensures { result ≡ time_ranged (t *ℤ i) }
{
    time(i128::from(t) * i128::from(i))
}

/// The product.
#[tactic(auto, unfolding(crate::specs::Values::product_value))]
pub fn multiply(a: Val, b: Val) -> Result<Val, ValFault>
    requires { Fit product_type a b }
    ensures { result ≡ product_value a b }
{
    match a {
        Val::Int(a) => match b {
            Val::Int(b) => integer(i64::from(a) * i64::from(b)),
            Val::Time(t) => repeated_time(t, a),
            _ => Err(ValFault::Range),
        },
        Val::Real(a) => match b {
            Val::Real(b) => real(a.mul(b)),
            Val::Time(t) => scaled_time(t, a),
            _ => Err(ValFault::Range),
        },
        Val::Time(t) => match b {
            Val::Int(b) => repeated_time(t, b),
            Val::Real(b) => scaled_time(t, b),
            _ => Err(ValFault::Range),
        },
        _ => Err(ValFault::Range),
    }
}

/// The quotient.
#[tactic(auto, unfolding(crate::specs::Values::quotient_value))]
pub fn divide(a: Val, b: Val) -> Result<Val, ValFault>
    requires { Fit quotient_type a b }
    ensures { result ≡ quotient_value a b }
{
    match a {
        Val::Int(a) => match b {
            Val::Int(b) => whole_quotient(i64::from(a), i64::from(b)),
            _ => Err(ValFault::Range),
        },
        Val::Real(a) => match b {
            Val::Real(b) => real(a.div(b)),
            _ => Err(ValFault::Range),
        },
        Val::Time(t) => match b {
            Val::Int(b) => parted_time(t, i64::from(b)),
            Val::Real(b) => divided_time(t, b),
            Val::Time(b) => whole_quotient(t, b),
            _ => Err(ValFault::Range),
        },
        _ => Err(ValFault::Range),
    }
}

/// The modulus, with the sign of the right operand.
#[tactic(auto, unfolding(crate::specs::Values::modulus_value))]
pub fn modulo(a: Val, b: Val) -> Result<Val, ValFault>
    requires { Fit remainder_type a b }
    ensures { result ≡ modulus_value a b }
{
    match a {
        Val::Int(a) => match b {
            Val::Int(b) => whole_modulus(i64::from(a), i64::from(b)),
            _ => Err(ValFault::Range),
        },
        _ => Err(ValFault::Range),
    }
}

/// The remainder, with the sign of the left operand.
#[tactic(auto, unfolding(crate::specs::Values::remainder_value))]
pub fn remainder(a: Val, b: Val) -> Result<Val, ValFault>
    requires { Fit remainder_type a b }
    ensures { result ≡ remainder_value a b }
{
    match a {
        Val::Int(a) => match b {
            Val::Int(b) => whole_remainder(i64::from(a), i64::from(b)),
            _ => Err(ValFault::Range),
        },
        _ => Err(ValFault::Range),
    }
}
