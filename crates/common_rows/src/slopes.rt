//! The slopes of these equations, which are the same at every point.
ghost use Rattle.std.specs.Prelude.{◌≡◌, ◌*◌, ◌≤◌, ◌+ℤ◌, length, unsigned_abs, neg_ℤ, if◌then◌else◌};
ghost use Rattle.fix_core.specs.Units.{one, units_per_one};
ghost use Rattle.flat_expr.specs.declared.expr.Unknown.TheVariants.{Quantity};
ghost use Rattle.design_meaning.specs.Equations.{at_unknown, end_slope, ends_slope, reference_slope};
ghost use Rattle.common_rows.specs.Forms.{HasFewEnds, slope_by};

use crate::ends::NodeEnd;
use crate::forms::CommonForm;
use fix_core::{Fix, UNITS_PER_ONE};
use flat_design::Terminal;
use flat_expr::Unknown;

/// The slope of a term, which is one unknown with a sign.
fn at_unknown(own: Unknown, unknown: Unknown, slope: Fix) -> Fix
    ensures value { result ≡ at_unknown own unknown slope }
    ensures bound { unsigned_abs result ≤ unsigned_abs slope }
{
    if own == unknown {
        slope
    } else {
        Fix::exactly(0)
    }
}

/// 1.0, or -1.0 where it is negative.
fn sign(negative: bool) -> Fix
    ensures value { result ≡ (if negative then neg_ℤ one else one) }
    ensures bound { unsigned_abs result ≤ units_per_one }
{
    let one = Fix::exactly(UNITS_PER_ONE as i128);
    if negative { one.neg() } else { one }
}

/// The slope of a branch end in a sum.
fn end_slope(end: &NodeEnd, unknown: Unknown) -> Fix
    ensures value { result ≡ end_slope unknown end.now }
    ensures bound { unsigned_abs result ≤ units_per_one }
{
    at_unknown(
        Unknown::Quantity(end.quantity),
        unknown,
        sign(end.minus_end),
    )
}

/// The slope of a sum. A quantity whose two ends are at the node has the slope 0.
fn sum_slope(ends: &[NodeEnd], unknown: Unknown) -> Fix
    requires { length ends.now ≤ 8589934592 }
    ensures value { result ≡ ends_slope unknown ends.now }
    ensures bound { unsigned_abs result ≤ units_per_one * length ends.now }
{
    match ends {
        [] => Fix::exactly(0),
        [first, rest @ ..] => end_slope(first, unknown).plus(sum_slope(rest, unknown)),
    }
}

/// The slope of a terminal's reference with a sign.
fn reference_slope(unknown: Unknown, terminal: Terminal, slope: Fix) -> Fix
    ensures value { result ≡ reference_slope unknown terminal slope }
    ensures bound { unsigned_abs result ≤ unsigned_abs slope }
{
    match terminal {
        Terminal::Node(i) => at_unknown(Unknown::Reference(i), unknown, slope),
        Terminal::Reference => Fix::exactly(0),
    }
}

/// The slope of a quantity less the difference of its terminals' references.
fn difference_slope(quantity: u32, plus: Terminal, minus: Terminal, unknown: Unknown) -> Fix
    ensures { result ≡ at_unknown (Quantity quantity) unknown one +ℤ reference_slope unknown plus (neg_ℤ one) +ℤ reference_slope unknown minus one }
{
    let own = at_unknown(Unknown::Quantity(quantity), unknown, sign(false));
    let at_plus = reference_slope(unknown, plus, sign(true));
    let at_minus = reference_slope(unknown, minus, sign(false));
    own.plus(at_plus).plus(at_minus)
}

/// The slope of an equation by an unknown.
pub fn slope(form: &CommonForm, unknown: Unknown) -> Fix
    requires { HasFewEnds form.now }
    ensures { result ≡ slope_by form.now unknown }
{
    match form {
        CommonForm::Sum(ends) => sum_slope(ends.as_slice(), unknown),
        CommonForm::Difference(quantity, plus, minus) => {
            difference_slope(*quantity, *plus, *minus, unknown)
        }
    }
}
