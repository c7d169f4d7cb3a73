//! Unknowns that stand in an equation.
ghost use Rattle.std.specs.Prelude.{◌≡◌};
ghost use Rattle.design_rules.specs.Equations.{stands_in};
ghost use Rattle.read_unknowns.specs.Asked.{stands_on};
ghost use Rattle.read_unknowns.specs.Unread.{UnreadSlopesAreAlike};

use flat_design::Pair;
use flat_expr::{FlatExpr, Unknown};

/// The unknown stands in the expression.
pub fn stands_in(expr: &FlatExpr, unknown: Unknown) -> bool
    ensures { result ≡ stands_in unknown expr.now }
{
    match expr {
        FlatExpr::Unknown(other) => *other == unknown,
        FlatExpr::Unary(_, _, operand) | FlatExpr::Call(_, operand) => {
            stands_in(operand.get(), unknown)
        }
        FlatExpr::Binary(_, _, left, right) | FlatExpr::Index(left, right, _) => {
            stands_in(left.get(), unknown) || stands_in(right.get(), unknown)
        }
        _ => false,
    }
}

/// The unknown stands on a side of the equation.
pub fn stands_on(pair: &Pair, unknown: Unknown) -> bool
    ensures { result ≡ stands_on pair.now unknown }
{
    stands_in(&pair.left, unknown) || stands_in(&pair.right, unknown)
}

/// All unknowns that stand on no side have one slope, or one fault; the slope is 0. It is proved, and does nothing when it
/// runs.
#[tactic(auto, using(crate::proofs::Unread::unread_slopes))]
pub fn unread_slopes_are_alike()
    ensures { UnreadSlopesAreAlike }
{}
