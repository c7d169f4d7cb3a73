//! Elements of bit vectors.
ghost use Rattle.std.specs.Prelude.{◌≡◌, ◌/◌, ◌%◌, ◌^◌, nat_eq, pos};
ghost use Rattle.design_meaning.specs.Value.{places_by, bit_at, element as element_of};

use ams_value::Val;
use design_meaning::EvalFault;
use flat_expr::{Direction, IndexRange};

/// The element of a vector at an index.
pub fn element(range: &IndexRange, vector: &Val, index: &Val) -> Result<Val, EvalFault>
    ensures { result ≡ element_of range.now vector.now index.now }
{
    match vector {
        Val::Bits(length, content) => match index {
            Val::Int(i) => bit(*length, *content, places(range, *i)),
            _ => Err(EvalFault::Range),
        },
        _ => Err(EvalFault::Range),
    }
}

/// How many places an index stands behind the leftmost element.
fn places(range: &IndexRange, index: i32) -> i64
    ensures { result ≡ places_by range.now.direction (pos range.now.left) index }
{
    let left = i64::from(range.left);
    match range.direction {
        Direction::To => i64::from(index) - left,
        Direction::Downto => left - i64::from(index),
    }
}

/// The bit so many places behind the leftmost one.
fn bit(length: u8, content: u64, place: i64) -> Result<Val, EvalFault>
    ensures { result ≡ bit_at length content place }
{
    if place < 0 {
        return Err(EvalFault::Range);
    }
    let place = place.unsigned_abs();
    if place < u64::from(length) {
        Ok(Val::Bit(is_set(content, length - 1 - place as u8)))
    } else {
        Err(EvalFault::Range)
    }
}

/// The bit so many places from the right is 1.
#[tactic(auto, using(crate::proofs::Bits::bits))]
fn is_set(content: u64, places: u8) -> bool
    ensures { result ≡ nat_eq (content / 2 ^ places % 2) 1 }
{
    if places < 64 {
        (content >> places) % 2 == 1
    } else {
        false
    }
}
