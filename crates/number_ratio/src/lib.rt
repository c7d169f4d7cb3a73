//! Products by a kept factor and quotients by a kept divisor. Each is prepared as a ratio of whole numbers, so that a
//! multiplication and an exact correction give the result.
#![tactic(auto)]

ghost use Rattle.std.specs.Prelude.{◌≡◌, pos, ℤ};
ghost use Rattle.fix_core.specs.Rounding.{signed, signs_differ};
ghost use Rattle.number_ratio.specs.Kept.{answer_of, kept, Factor, Divisor};

mod chosen;
mod ways;

use chosen::{common, prepared};
use fix_core::{Fix, NumFault, UNITS_PER_ONE};
use std::marker::Model;
use ways::Way;

/// The units of 1.0.
const ONE: u64 = UNITS_PER_ONE as u64;

/// A factor or divisor with all that its products or quotients need.
#[derive(Drop)]
pub struct Ratio {
    way: Way,
    negative: bool,
    /// Whether the value is a divisor.
    divides: bool,
    value: Fix,
}

impl Model for Ratio {
    ghost use Rattle.std.specs.Prelude.{◌≡◌, ◌*◌, pos};
    ghost use Rattle.fix_core.specs.Rounding.{signs_differ};
    ghost use Rattle.number_ratio.specs.Ratios.{factor_of, divisor_of};
    ghost use Rattle.number_ratio.specs.Kept.{Kept, coded_kept, kept, numerator_of, denominator_of};

    ghost Value = { Kept };

    ghost coded = { coded_kept };

    ghost view = { λ a. kept a.divides a.value };

    ghost invariant = { λ a. (a.negative ≡ signs_differ (pos 0) a.value)
        × (factor_of a.way * denominator_of a.divides a.value ≡ numerator_of a.divides a.value * divisor_of a.way) };
}

/// The number of this sign and magnitude.
#[inline(always)]
fn with_sign(negative: bool, magnitude: u64) -> Fix
    ensures { result ≡ signed negative magnitude }
{
    let units = i128::from(magnitude);
    Fix::exactly(if negative { -units } else { units })
}

/// Whether exactly one of two numbers is negative: `p`, and the one of which `negative` says it.
#[inline(always)]
fn sign_with(negative: bool, p: Fix) -> bool
    ensures { (z : ℤ) → negative ≡ signs_differ (pos 0) z → result ≡ signs_differ p z }
{
    negative != (p.units() < 0)
}

impl Ratio {
    /// Multiplies by `f`.
    pub fn of_factor(f: Fix) -> Ratio
        ensures { result ≡ Factor f }
    {
        let numerator = f.magnitude();
        let way = prepared(numerator, UNITS_PER_ONE, common(numerator));
        Ratio {
            way,
            negative: f.units() < 0,
            divides: false,
            value: f,
        }
    }

    /// Divides by `d`.
    pub fn of_divisor(d: Fix) -> Ratio
        ensures { result ≡ Divisor d }
    {
        let denominator = d.magnitude();
        let way = prepared(UNITS_PER_ONE, denominator, common(denominator));
        Ratio {
            way,
            negative: d.units() < 0,
            divides: true,
            value: d,
        }
    }

    /// The product by the factor, or the quotient by the divisor.
    #[inline(always)]
    pub fn times(&self, p: Fix) -> Result<Fix, NumFault>
        ensures { result ≡ answer_of self.now p }
    {
        match self.way.nearest(p.magnitude()) {
            Some(magnitude) => Ok(with_sign(sign_with(self.negative, p), magnitude)),
            None => slowly(self.divides, self.value, p),
        }
    }
}

/// By one multiplication or division of numbers.
#[inline(never)]
fn slowly(divides: bool, value: Fix, p: Fix) -> Result<Fix, NumFault>
    ensures { result ≡ answer_of (kept divides value) p }
{
    if divides { p.div(value) } else { value.mul(p) }
}
