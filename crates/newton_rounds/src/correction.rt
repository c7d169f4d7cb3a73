//! A point less its corrections, and the test of its residuals.
ghost use Rattle.std.specs.Prelude.{◌≡◌, length};
ghost use Rattle.fix_core.specs.Passes.{answer};
ghost use Rattle.design_meaning.specs.Newton.{corrected, within};

use ams_point::Point;
use fix_core::{Fix, NumFault};

/// Takes the corrections off a point.
#[tactic(auto, using(crate::proofs::Correcting::corrections))]
pub fn correct(x: &mut Point, corrections: &Point) -> Result<(), NumFault>
    requires count { length x.old ≡ length corrections.now }
    ensures answer { corrected x.old corrections.now ≡ answer result x.new }
    ensures length { length x.new ≡ length x.old }
{
    for i in 0..x.len() {
        let value = x.get(i).sub(corrections.get(i))?;
        x.set(i, value);
    }
    Ok(())
}

/// Each residual is within the tolerance, which is in units of 10^-12.
pub fn are_within(residuals: &[Fix], tolerance: u64) -> bool
    ensures { result ≡ within tolerance residuals.now }
{
    residuals
        .iter()
        .all(|residual| residual.magnitude() <= u128::from(tolerance))
}
