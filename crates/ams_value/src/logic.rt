//! The logical operators.
ghost use Rattle.std.specs.Prelude.{◌≡◌, ◌<◌, ◌≤◌, ◌^◌};
ghost use Rattle.ams_value.specs.Types.{Fit, logical_type};
ghost use Rattle.ams_value.specs.Values.{all_ones, truth_of, bits_of, logical_of, decided_by, decided_truth};

use crate::fault::ValFault;
use crate::op::BinaryOperator;
use crate::val::Val;

/// A logical operator on two truth values.
fn truth(op: BinaryOperator, a: bool, b: bool) -> bool
    ensures { result ≡ truth_of op a b }
{
    match op {
        BinaryOperator::And => a && b,
        BinaryOperator::Or => a || b,
        BinaryOperator::Nand => !(a && b),
        BinaryOperator::Nor => !(a || b),
        BinaryOperator::Xor => a != b,
        BinaryOperator::Xnor => a == b,
        _ => false,
    }
}

/// So many ones.
#[tactic(auto, using(crate::proofs::Vectors::ones), unfolding(crate::specs::Values::all_ones))]
pub fn ones(n: u8) -> u64
    requires { n ≤ 64 }
    ensures { result ≡ all_ones n }
{
    if n == 64 { u64::MAX } else { (1 << n) - 1 }
}

/// A logical operator on the elements of two vectors of one length.
#[tactic(auto, using(crate::proofs::Vectors::logical))]
fn bits(op: BinaryOperator, n: u8, a: u64, b: u64) -> u64
    requires length { n ≤ 64 }
    requires left { a < 2 ^ n }
    requires right { b < 2 ^ n }
    ensures { result ≡ bits_of op n a b }
{
    match op {
        BinaryOperator::And => a & b,
        BinaryOperator::Or => a | b,
        BinaryOperator::Nand => ones(n) - (a & b),
        BinaryOperator::Nor => ones(n) - (a | b),
        BinaryOperator::Xor => a ^ b,
        BinaryOperator::Xnor => ones(n) - (a ^ b),
        _ => 0,
    }
}

/// A logical operator on two values.
#[tactic(auto, using(crate::proofs::Vectors::lengths), unfolding(crate::specs::Values::logical_of))]
pub fn logical(op: BinaryOperator, a: Val, b: Val) -> Result<Val, ValFault>
    requires { Fit logical_type a b }
    ensures { result ≡ logical_of op a b }
{
    match (a, b) {
        (Val::Bool(a), Val::Bool(b)) => Ok(Val::Bool(truth(op, a, b))),
        (Val::Bit(a), Val::Bit(b)) => Ok(Val::Bit(truth(op, a, b))),
        (Val::Bits(n, a), Val::Bits(_, b)) => Ok(Val::Bits(n, bits(op, n, a, b))),
        _ => Err(ValFault::Range),
    }
}

/// What a logical operator on truth values gives, where its left operand alone decides it. The right one is not
/// evaluated then.
#[tactic(auto, unfolding(crate::specs::Values::decided_by))]
pub fn decided(op: BinaryOperator, left: Val) -> Option<Val>
    ensures { result ≡ decided_by op left }
{
    match left {
        Val::Bool(a) => Some(Val::Bool(decision(op, a)?)),
        Val::Bit(a) => Some(Val::Bit(decision(op, a)?)),
        _ => None,
    }
}

fn decision(op: BinaryOperator, left: bool) -> Option<bool>
    ensures { result ≡ decided_truth op left }
{
    match (op, left) {
        (BinaryOperator::And, false) | (BinaryOperator::Nor, true) => Some(false),
        (BinaryOperator::Or, true) | (BinaryOperator::Nand, false) => Some(true),
        _ => None,
    }
}
