//! The exponential, sine, cosine and square root of fixed-point numbers.
#![tactic(auto)]

ghost use Rattle.std.specs.Prelude.{◌≡◌, ◌+◌, ◌*◌, ◌<◌, ◌≤◌, ◌^◌, ℤ, pos, neg_ℤ, unsigned_abs};
ghost use Rattle.fix_core.specs.Units.{units_per_one};
ghost use Rattle.math_fix.specs.Functions.{series, exp_term, exp_of, angle_of, sin_term, sin_of, cos_term, cos_of, sqrt_of, multiplied_by, next_term, RootIsGreatest};

use fix_core::{Fix, NumFault, UNITS_PER_ONE, round_quotient};

mod root;

/// The units of 1.0.
const ONE: i128 = UNITS_PER_ONE as i128;

/// The units of 2 pi.
const TURN: i128 = 6_283_185_307_180;

/// The units of e, rounded.
const E: i128 = 2_718_281_828_459;

/// The units of 1 / e, rounded.
const INVERSE_E: i128 = 367_879_441_171;

/// `s` times the n-th power of a factor, rounded after each product.
#[tactic(auto, using(crate::proofs::Bounds::powers))]
fn multiply(n: u128, factor: Fix, s: Fix) -> Result<Fix, NumFault>
    ensures { result ≡ multiplied_by n factor s }
{
    if n == 0 {
        Ok(s)
    } else {
        match s.mul(factor) {
            Ok(t) => multiply(n - 1, factor, t),
            Err(e) => Err(e),
        }
    }
}

/// The power of e to a fraction.
#[tactic(auto, using(crate::proofs::Bounds::exp_steps))]
fn exp_series(f: Fix) -> Fix
    requires { unsigned_abs f ≤ units_per_one }
    ensures { result ≡ series (exp_term f) 17 }
{
    let mut term = Fix::exactly(ONE);
    let mut sum = term;
    for k in 0..16u32 {
        term = term.mul_over(f, k + 1);
        sum = sum.plus(term);
    }
    sum
}

/// e to the power of a number.
#[tactic(auto, using(crate::proofs::Cases::exps))]
pub fn exp(x: Fix) -> Result<Fix, NumFault>
    ensures { result ≡ exp_of x }
{
    let whole = x.units().div_euclid(ONE);
    if whole > 30 {
        return Err(NumFault::Overflow);
    }
    if whole < -40 {
        return Ok(Fix::exactly(0));
    }
    let fraction = Fix::exactly(x.units().rem_euclid(ONE));
    let power = exp_series(fraction);
    if whole < 0 {
        multiply(whole.unsigned_abs(), Fix::exactly(INVERSE_E), power)
    } else {
        multiply(whole.unsigned_abs(), Fix::exactly(E), power)
    }
}

/// The next term of a series for an angle, from the one before.
#[tactic(auto, using(crate::proofs::Bounds::next_steps))]
fn next(t: Fix, r: Fix, product: u32) -> Fix
    requires term { unsigned_abs t ≤ 1000000000000000000000 }
    requires angle { unsigned_abs r ≤ 3141592653590 }
    requires divisor { 0 < product }
    ensures { result ≡ next_term r product t }
{
    t.mul_over(r, 1).mul_over(r, product).neg()
}

/// The sine.
#[tactic(auto, using(crate::proofs::Bounds::sin_steps), unfolding(crate::specs::Functions::sin_of))]
pub fn sin(x: Fix) -> Fix
    ensures { result ≡ sin_of x }
{
    let r = angle(x);
    let mut term = r;
    let mut sum = r;
    for k in 0..12u32 {
        term = next(term, r, 2 * (k + 1) * (2 * (k + 1) + 1));
        sum = sum.plus(term);
    }
    sum
}

/// The cosine.
#[tactic(auto, using(crate::proofs::Bounds::cos_steps), unfolding(crate::specs::Functions::cos_of))]
pub fn cos(x: Fix) -> Fix
    ensures { result ≡ cos_of x }
{
    let r = angle(x);
    let mut term = Fix::exactly(ONE);
    let mut sum = term;
    for k in 0..12u32 {
        term = next(term, r, (2 * (k + 1) - 1) * (2 * (k + 1)));
        sum = sum.plus(term);
    }
    sum
}

/// The square root, rounded down, of a number that is not negative.
#[tactic(auto, using(crate::proofs::Cases::roots))]
pub fn sqrt(x: Fix) -> Result<Fix, NumFault>
    ensures { result ≡ sqrt_of x }
{
    let units = x.units();
    if units < 0 {
        return Err(NumFault::Domain);
    }
    let root = root::whole_root(units.unsigned_abs() * ONE as u128);
    Ok(Fix::exactly(root as i128))
}

/// The law of roots. It is proved, and does nothing when it runs.
#[tactic(auto, using(crate::proofs::Cases::greatest))]
pub fn root_is_greatest()
    ensures { RootIsGreatest }
{}

/// What is left of a number beside the nearest multiple of 2 pi.
fn angle(x: Fix) -> Fix
    ensures value { result ≡ angle_of x }
    ensures bound { unsigned_abs result ≤ 3141592653590 }
{
    Fix::exactly(x.units() - round_quotient(x.units(), TURN) * TURN)
}
