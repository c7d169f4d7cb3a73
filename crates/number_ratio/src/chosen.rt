//! Which way serves a ratio.

ghost use Rattle.std.specs.Prelude.{◌≡◌, ◌*◌, ◌<◌, ◌≤◌, ◌^◌, IfSome};
ghost use Rattle.fix_core.specs.Rounding.{nearest};
ghost use Rattle.number_ratio.specs.Ratios.{factor_of, divisor_of};

use crate::ONE;
use crate::ways::{Division, Estimate, Multiple, Way};
use fix_core::UNITS_PER_ONE;

/// The greatest power of a prime that divides `n`, at most the twelfth.
#[inline(always)]
fn power_in(prime: u64, n: u64) -> u64
    requires prime { 1 < prime }
    requires some { 0 < n }
    ensures some { 0 < result }
    ensures bound { result ≤ n }
{
    let mut power = 1u64;
    let mut rest = n;
    for _ in 0..12 {
        if rest % prime != 0 {
            break;
        }
        rest /= prime;
        power *= prime;
    }
    power
}

/// The greatest divisor of `n` and of the units of 1.0, which have the primes 2 and 5 alone.
pub fn common(n: u128) -> u64
    ensures { 0 < result }
{
    let rest = (n % UNITS_PER_ONE) as u64;
    if rest == 0 {
        return ONE;
    }
    let twos = power_in(2, rest);
    twos * power_in(5, rest / twos)
}

/// The way for `numerator / denominator`, of which `common` is to be a divisor.
pub fn prepared(numerator: u128, denominator: u128, common: u64) -> Way
    requires { 0 < common }
    ensures { factor_of result * denominator ≡ numerator * divisor_of result }
{
    let common = u128::from(common);
    let factor = numerator / common;
    let divisor = denominator / common;
    if factor * common != numerator || divisor * common != denominator {
        return Way::Slow;
    }
    if factor == 0 || divisor == 0 || factor >> 62 != 0 || divisor >> 62 != 0 {
        return Way::Slow;
    }
    reduced(factor as u64, divisor as u64)
}

/// The way for `factor / divisor`, which has lowest terms.
fn reduced(factor: u64, divisor: u64) -> Way
    requires factor { 0 < factor }
    requires divisor { 0 < divisor }
    requires small { divisor < 2 ^ 62 }
    ensures { factor_of result * divisor ≡ factor * divisor_of result }
{
    if divisor == 1 {
        return Way::Multiplied(Multiple::new(factor));
    }
    if let Some(division) = Division::new(factor, divisor) {
        return Way::Divided(division);
    }
    match Estimate::new(factor, divisor) {
        Some(estimate) => Way::Estimated(estimate),
        None => Way::Slow,
    }
}

impl Way {
    /// The rounded ratio of a magnitude, where this way takes it.
    #[inline(always)]
    pub fn nearest(&self, u: u128) -> Option<u64>
        ensures some { IfSome result (λ q. 0 < divisor_of self.now) }
        ensures value { IfSome result (λ q. q ≡ nearest (u * factor_of self.now) (divisor_of self.now)) }
    {
        match *self {
            Way::Slow => None,
            Way::Multiplied(way) => way.nearest(u),
            Way::Divided(way) => way.nearest(u),
            Way::Estimated(way) => way.nearest(u),
        }
    }
}
