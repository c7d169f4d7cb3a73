//! The square root of a whole number, rounded down.

ghost use Rattle.std.specs.Prelude.{◌+◌, ◌*◌, ◌<◌, ◌≤◌, ◌^◌};

use std::num::saturating_f64_to_u64;

/// What floating point says the root of `n` is, which may be wrong.
fn estimate(n: u128) -> u64 {
    let high = (n >> 104) as u64 as f64;
    let middle = ((n >> 52) & 0xf_ffff_ffff_ffff) as u64 as f64;
    let low = (n & 0xf_ffff_ffff_ffff) as u64 as f64;
    let number = (high * 4_503_599_627_370_496.0 + middle) * 4_503_599_627_370_496.0 + low;
    saturating_f64_to_u64(number.sqrt())
}

/// The greatest number whose square is at most `n`: an estimate is bettered by one step of Newton's method and tried,
/// and where it is wrong the root is searched for.
pub fn whole_root(n: u128) -> u128
    requires { n ≤ 10 ^ 36 }
    ensures square { result * result ≤ n }
    ensures next_square { n < (result + 1) * (result + 1) }
    ensures bound { result < 2 ^ 64 }
{
    let estimate = u128::from(estimate(n));
    if estimate == 0 {
        return n.isqrt();
    }
    let near = (estimate + n / estimate) / 2;
    if near >> 62 == 0 {
        if near * near <= n {
            if n < (near + 1) * (near + 1) {
                return near;
            }
        } else if (near - 1) * (near - 1) <= n {
            return near - 1;
        }
    }
    n.isqrt()
}
