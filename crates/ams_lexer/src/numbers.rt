ghost use Rattle.std.specs.Prelude.{◌≡◌, ℕ, pos, ◌-ℤ◌, ◌≤ℤ◌, ◌+◌, ◌-◌, ◌^◌, ◌<◌, ◌≤◌, suc, length, take, drop, not, is_some, true, Some, None};
ghost use Rattle.std.specs.Bool.{OnTrue};
ghost use Rattle.ams_lexer.specs.Runs.{begins, IsRun, run_length};
ghost use Rattle.ams_lexer.specs.Numbers.{digit, follows, is_sign, sign_length, exponent_length, value_after, value_of, digit_count, magnitude, is_negative, signed_exponent, closes, integer_at, real_at, real_from, based_from, based_digits_at, based_at, number_from, number_at, IsDigits, IsExponent};

use crate::runs::{RunClass, digit_value, run_length};
use ams_token::{Decimal, Integer};

/// The value of a number.
#[derive(Clone, Copy, Debug, PartialEq, Eq)]
pub enum Number {
    Int(Integer),
    Real(Decimal),
}

const DECIMAL: RunClass = RunClass::Digits(10);

fn is_digit(base: u8, byte: u8) -> bool
    ensures { result ≡ digit base byte }
{
    digit_value(byte) < base
}

fn begins_digit(base: u8, bytes: &[u8]) -> bool
    ensures { result ≡ begins (digit base) bytes.now }
{
    match bytes {
        [] => false,
        [byte, ..] => is_digit(base, *byte),
    }
}

fn sign_length(signed: bool, bytes: &[u8]) -> usize
    ensures length { result ≡ sign_length signed bytes.now }
    ensures bound { result ≤ length bytes.now }
{
    match bytes {
        [b'+', ..] => 1,
        [b'-', ..] if signed => 1,
        _ => 0,
    }
}

/// How many bytes the exponent at the front takes, 0 where there is none.
fn exponent_length(signed: bool, bytes: &[u8]) -> usize
    ensures length { result ≡ exponent_length signed bytes.now }
    ensures bound { result ≤ length bytes.now }
{
    let [marker, rest @ ..] = bytes else {
        return 0;
    };
    let sign = sign_length(signed, rest);
    let (_, digits) = rest.split_at(sign);
    if (*marker == b'E' || *marker == b'e') && begins_digit(10, digits) {
        1 + sign + run_length(DECIMAL, digits)
    } else {
        0
    }
}

/// The run of digits at the front, and what follows it.
fn split_digits(base: u8, bytes: &[u8]) -> (&[u8], &[u8])
    ensures digits { result.0.now ≡ take (run_length (digit base) bytes.now) bytes.now }
    ensures rest { result.1.now ≡ drop (run_length (digit base) bytes.now) bytes.now }
    ensures length { length result.0.now ≡ run_length (digit base) bytes.now }
    ensures run { IsRun (digit base) result.0.now }
    ensures spelled { begins (digit base) bytes.now ≡ true → IsDigits base result.0.now }
{
    bytes.split_at(run_length(RunClass::Digits(base), bytes))
}

/// The exponent at the front, nothing where there is none, and what follows it.
fn split_exponent(signed: bool, bytes: &[u8]) -> (&[u8], &[u8])
    ensures exponent { result.0.now ≡ take (exponent_length signed bytes.now) bytes.now }
    ensures rest { result.1.now ≡ drop (exponent_length signed bytes.now) bytes.now }
    ensures length { length result.0.now ≡ exponent_length signed bytes.now }
    ensures spelled { IsExponent true result.0.now }
{
    bytes.split_at(exponent_length(signed, bytes))
}

/// The number whose digits are those of `start` and then those of the text.
fn value_after(base: u8, start: u128, text: &[u8]) -> u128
    requires small_base { base ≤ 16 }
    requires digits { IsRun (digit base) text.now }
    requires short { length text.now ≤ 32 }
    requires room { start < 16 ^ (32 - length text.now) }
    ensures { result ≡ value_after base start text.now }
{
    let mut value = start;
    for byte in text {
        if *byte != b'_' {
            value = value * u128::from(base) + u128::from(digit_value(*byte));
        }
    }
    value
}

fn digit_count(text: &[u8]) -> usize
    ensures count { result ≡ digit_count text.now }
    ensures bound { result ≤ length text.now }
{
    text.iter().filter(|byte| **byte != b'_').count()
}

/// The magnitude of an exponent, 0 where there is none.
#[tactic(auto, using(crate::proofs::ValueLaws::power_positive))]
fn magnitude(exponent: &[u8]) -> u128
    requires exponent { IsExponent true exponent.now }
    requires short { length exponent.now ≤ 32 }
    ensures { result ≡ magnitude exponent.now }
{
    match exponent {
        [] => 0,
        [_, rest @ ..] => {
            let (_, digits) = rest.split_at(sign_length(true, rest));
            value_after(10, 0, digits)
        }
    }
}

fn is_negative(exponent: &[u8]) -> bool
    ensures { result ≡ is_negative exponent.now }
{
    matches!(exponent, [_, b'-', ..])
}

fn follows(closed: bool, byte: u8) -> bool
    ensures { result ≡ follows closed byte }
{
    byte.is_ascii_alphabetic()
        || (byte == b'_' || byte == b'.' || byte == b'#')
        || (!closed && is_digit(10, byte))
}

fn begins_follow(closed: bool, rest: &[u8]) -> bool
    ensures { result ≡ begins (follows closed) rest.now }
{
    match rest {
        [] => false,
        [byte, ..] => follows(closed, *byte),
    }
}

/// Whether a number may end here: its size in bytes, its exponent, and what follows it.
fn closes(size: usize, closed: bool, exponent: &[u8], rest: &[u8]) -> bool
    requires exponent { IsExponent true exponent.now }
    requires part { length exponent.now ≤ size }
    ensures closes { result ≡ closes size closed exponent.now rest.now }
    ensures short { OnTrue result (size ≤ 32) }
    ensures small { OnTrue result (magnitude exponent.now ≤ 40) }
{
    size <= 32 && !begins_follow(closed, rest) && magnitude(exponent) <= 40
}

fn signed_exponent(exponent: &[u8]) -> i32
    requires exponent { IsExponent true exponent.now }
    requires short { length exponent.now ≤ 32 }
    requires small { magnitude exponent.now ≤ 40 }
    ensures value { result ≡ signed_exponent exponent.now }
    ensures low { (pos 0 -ℤ pos 40) ≤ℤ result }
    ensures high { result ≤ℤ pos 40 }
{
    let magnitude = magnitude(exponent) as i32;
    if is_negative(exponent) {
        0 - magnitude
    } else {
        magnitude
    }
}

/// The integer that these digits begin, and how many bytes it takes.
#[tactic(auto, using(crate::proofs::ValueLaws::power_positive), unfolding(crate::specs::Numbers::integer_at))]
fn integer(whole: &[u8], after: &[u8]) -> Option<(Number, usize)>
    requires whole { IsDigits 10 whole.now }
    requires short { length whole.now ≤ 32 }
    ensures { result ≡ integer_at whole.now after.now }
{
    let (exponent, rest) = split_exponent(false, after);
    let size = whole.len() + exponent.len();
    if !closes(size, false, exponent, rest) {
        return None;
    }
    let number = Integer {
        digits: value_after(10, 0, whole),
        base: 10,
        exponent: magnitude(exponent) as u8,
    };
    Some((Number::Int(number), size))
}

/// The power of ten of a real number.
fn power(exponent: &[u8], fraction: &[u8]) -> i32
    requires exponent { IsExponent true exponent.now }
    requires short { length exponent.now ≤ 32 }
    requires small { magnitude exponent.now ≤ 40 }
    requires part { length fraction.now ≤ 32 }
    ensures { result ≡ signed_exponent exponent.now -ℤ pos (digit_count fraction.now) }
{
    signed_exponent(exponent) - digit_count(fraction) as i32
}

/// The real number of these digits, and how many bytes it takes.
#[tactic(auto, using(crate::proofs::ValueLaws::power_positive, crate::proofs::ValueLaws::room_left), unfolding(crate::specs::Numbers::real_from))]
fn real_from(whole: &[u8], fraction: &[u8], tail: &[u8]) -> Option<(Number, usize)>
    requires whole { IsDigits 10 whole.now }
    requires short { length whole.now ≤ 32 }
    requires fraction { IsDigits 10 fraction.now }
    requires part { length fraction.now ≤ 32 }
    ensures { result ≡ real_from whole.now fraction.now tail.now }
{
    let (exponent, rest) = split_exponent(true, tail);
    let size = whole.len() + 1 + fraction.len() + exponent.len();
    if !closes(size, false, exponent, rest) {
        return None;
    }
    let number = Decimal {
        digits: value_after(10, value_after(10, 0, whole), fraction),
        power: power(exponent, fraction),
    };
    Some((Number::Real(number), size))
}

/// The real number that these digits begin and, after a point, these bytes go on with.
#[tactic(auto, unfolding(crate::specs::Numbers::real_at))]
fn real(whole: &[u8], after: &[u8]) -> Option<(Number, usize)>
    requires whole { IsDigits 10 whole.now }
    requires short { length whole.now ≤ 32 }
    requires fraction { begins (digit 10) after.now ≡ true }
    ensures { result ≡ real_at whole.now after.now }
{
    let (fraction, tail) = split_digits(10, after);
    if fraction.len() > 32 {
        return None;
    }
    real_from(whole, fraction, tail)
}

/// The integer of these digits of the base, and how many bytes it takes.
#[tactic(auto, using(crate::proofs::ValueLaws::power_positive), unfolding(crate::specs::Numbers::based_from))]
fn based_from(size: usize, base: u8, digits: &[u8], tail: &[u8]) -> Option<(Number, usize)>
    requires short { size ≤ 32 }
    requires base { base ≤ 16 }
    requires digits { IsRun (digit base) digits.now }
    requires part { length digits.now ≤ 32 }
    ensures { result ≡ based_from size base digits.now tail.now }
{
    let (exponent, rest) = split_exponent(false, tail);
    let size = size + 1 + digits.len() + 1 + exponent.len();
    if !closes(size, exponent.is_empty(), exponent, rest) {
        return None;
    }
    let number = Integer {
        digits: value_after(base, 0, digits),
        base,
        exponent: magnitude(exponent) as u8,
    };
    Some((Number::Int(number), size))
}

/// The integer that a base of this size and value begins and, after a `#`, these bytes go on with.
#[tactic(auto, unfolding(crate::specs::Numbers::based_digits_at))]
fn based_digits(size: usize, base: u8, after: &[u8]) -> Option<(Number, usize)>
    requires short { size ≤ 32 }
    requires base { base ≤ 16 }
    ensures { result ≡ based_digits_at size base after.now }
{
    let (digits, rest) = split_digits(base, after);
    match rest {
        [b'#', tail @ ..] if begins_digit(base, after) && digits.len() <= 32 => {
            based_from(size, base, digits, tail)
        }
        _ => None,
    }
}

/// The integer that this base begins and, after a `#`, these bytes go on with.
#[tactic(auto, using(crate::proofs::ValueLaws::power_positive), unfolding(crate::specs::Numbers::based_at))]
fn based(base: &[u8], after: &[u8]) -> Option<(Number, usize)>
    requires base { IsDigits 10 base.now }
    requires short { length base.now ≤ 32 }
    ensures { result ≡ based_at base.now after.now }
{
    let value = value_after(10, 0, base);
    if value < 2 || value > 16 {
        return None;
    }
    based_digits(base.len(), value as u8, after)
}

#[tactic(auto, unfolding(crate::specs::Numbers::number_from))]
fn number_from(whole: &[u8], after: &[u8]) -> Option<(Number, usize)>
    requires whole { IsDigits 10 whole.now }
    requires short { length whole.now ≤ 32 }
    ensures { result ≡ number_from whole.now after.now }
{
    match after {
        [b'#', rest @ ..] => based(whole, rest),
        [b'.', rest @ ..] if begins_digit(10, rest) => real(whole, rest),
        _ => integer(whole, after),
    }
}

/// The number at the front of bytes that begin with a digit, and how many bytes it takes. None where it is malformed.
#[tactic(auto, unfolding(crate::specs::Numbers::number_at))]
pub fn read_number(bytes: &[u8]) -> Option<(Number, usize)>
    requires { begins (digit 10) bytes.now ≡ true }
    ensures { result ≡ number_at bytes.now }
{
    let (whole, after) = split_digits(10, bytes);
    if whole.len() > 32 {
        return None;
    }
    number_from(whole, after)
}
