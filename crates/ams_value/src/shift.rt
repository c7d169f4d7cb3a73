//! Shifts and concatenation of bit vectors. The last element is the lowest bit.
ghost use Rattle.std.specs.Prelude.{◌≡◌, ◌+◌, ◌*◌, ◌/◌, ◌%◌, ◌<◌, ◌≤◌, ◌^◌};
ghost use Rattle.ams_value.specs.Types.{Fit, shift_type, concat_type};
ghost use Rattle.ams_value.specs.Values.{left_shifted, right_shifted, last_filled, first_filled, rotated, shifted, opposite, shift_of, concat_of, width_of, content_of};

use crate::fault::ValFault;
use crate::logic::ones;
use crate::op::BinaryOperator;
use crate::val::Val;

/// The last elements, so many.
#[tactic(auto, using(crate::proofs::Vectors::parts))]
fn last(a: u64, n: u8) -> u64
    requires { n ≤ 64 }
    ensures { result ≡ a % 2 ^ n }
{
    if n == 64 { a } else { a % (1 << n) }
}

/// So many places to the left.
#[tactic(auto, using(crate::proofs::Vectors::parts))]
fn left(n: u8, k: u32, a: u64) -> u64
    requires { n ≤ 64 }
    ensures { result ≡ left_shifted n k a }
{
    if k >= u32::from(n) {
        0
    } else {
        last(a, n - k as u8) << k
    }
}

/// So many places to the right.
#[tactic(auto, using(crate::proofs::Vectors::parts))]
fn right(k: u32, a: u64) -> u64
    ensures { result ≡ right_shifted k a }
{
    if k >= 64 { 0 } else { a >> k }
}

#[tactic(auto, using(crate::proofs::Vectors::parts))]
fn last_fill(n: u8, k: u32, a: u64) -> u64
    requires { n ≤ 64 }
    ensures { result ≡ last_filled n k a }
{
    if a % 2 == 0 {
        0
    } else if k >= u32::from(n) {
        ones(n)
    } else {
        ones(k as u8)
    }
}

#[tactic(auto, using(crate::proofs::Vectors::parts))]
fn first_fill(n: u8, k: u32, a: u64) -> u64
    requires { n ≤ 64 }
    ensures { result ≡ first_filled n k a }
{
    if right(u32::from(n.saturating_sub(1)), a) == 0 {
        0
    } else if k >= u32::from(n) {
        ones(n)
    } else {
        ones(n) - ones(n - k as u8)
    }
}

/// The first elements, so many, move behind the others.
#[tactic(auto, using(crate::proofs::Vectors::parts))]
fn rotate(n: u8, k: u32, a: u64) -> u64
    requires length { n ≤ 64 }
    requires places { k ≤ n }
    requires content { a < 2 ^ n }
    ensures { result ≡ rotated n k a }
{
    left(n, k, a) + right(u32::from(n) - k, a)
}

/// A shift by so many places, of the kind that the operator says.
#[tactic(auto, using(crate::proofs::Vectors::shifts))]
fn places(op: BinaryOperator, n: u8, k: u32, a: u64) -> u64
    requires length { n ≤ 64 }
    requires content { a < 2 ^ n }
    ensures { result ≡ shifted op n k a }
{
    if n == 0 {
        return 0;
    }
    let turn = k % u32::from(n);
    match op {
        BinaryOperator::Sll => left(n, k, a),
        BinaryOperator::Srl => right(k, a),
        BinaryOperator::Sla => left(n, k, a) + last_fill(n, k, a),
        BinaryOperator::Sra => right(k, a) + first_fill(n, k, a),
        BinaryOperator::Rol => rotate(n, turn, a),
        BinaryOperator::Ror => rotate(n, u32::from(n) - turn, a),
        _ => 0,
    }
}

/// The same shift the other way.
fn reversed(op: BinaryOperator) -> BinaryOperator
    ensures { result ≡ opposite op }
{
    match op {
        BinaryOperator::Sll => BinaryOperator::Srl,
        BinaryOperator::Srl => BinaryOperator::Sll,
        BinaryOperator::Sla => BinaryOperator::Sra,
        BinaryOperator::Sra => BinaryOperator::Sla,
        BinaryOperator::Rol => BinaryOperator::Ror,
        BinaryOperator::Ror => BinaryOperator::Rol,
        _ => op,
    }
}

/// A shift of a vector by an integer, to the other side where it is negative.
#[tactic(auto, using(crate::proofs::Vectors::ways), unfolding(crate::specs::Values::shift_of))]
pub fn shift(op: BinaryOperator, a: Val, b: Val) -> Result<Val, ValFault>
    requires { Fit shift_type a b }
    ensures { result ≡ shift_of op a b }
{
    match a {
        Val::Bits(n, a) => match b {
            Val::Int(k) => {
                if k < 0 {
                    Ok(Val::Bits(n, places(reversed(op), n, k.unsigned_abs(), a)))
                } else {
                    Ok(Val::Bits(n, places(op, n, k.unsigned_abs(), a)))
                }
            }
            _ => Err(ValFault::Range),
        },
        _ => Err(ValFault::Range),
    }
}

/// How many elements a value gives to a vector.
fn width(value: &Val) -> u8
    ensures { result ≡ width_of value.now }
{
    match value {
        Val::Bit(_) => 1,
        Val::Bits(n, _) => *n,
        _ => 0,
    }
}

/// The elements that a value gives to a vector.
fn content(value: &Val) -> u64
    ensures { result ≡ content_of value.now }
{
    match value {
        Val::Bit(b) => u64::from(*b),
        Val::Bits(_, a) => *a,
        _ => 0,
    }
}

/// One vector from two, the first on the left.
#[tactic(auto, using(crate::proofs::Vectors::concats), unfolding(crate::specs::Values::concat_of))]
pub fn concat(a: Val, b: Val) -> Result<Val, ValFault>
    requires { Fit concat_type a b }
    ensures { result ≡ concat_of a b }
{
    let (m, n) = (width(&a), width(&b));
    Ok(Val::Bits(m + n, moved(m, n, content(&a)) + content(&b)))
}

/// A content of so many elements, moved to the left.
#[tactic(auto, using(crate::proofs::Vectors::concats))]
fn moved(m: u8, n: u8, a: u64) -> u64
    requires length { m + n ≤ 64 }
    requires content { a < 2 ^ m }
    ensures { result ≡ a * 2 ^ n }
{
    if n == 64 { 0 } else { a << n }
}
