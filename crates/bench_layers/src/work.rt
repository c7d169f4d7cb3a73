//! The pieces of work.
ghost use Rattle.std.specs.Prelude.{◌<◌, unsigned_abs};

use crate::dense::dense;
use crate::numbers::Numbers;
use fix_core::{Fix, NumFault};
use math_fix::exp;
use std::alloc::{AllocError, Global};

/// A piece of work, as its name says: operands of at most 2^39 units are small, and those of up to 2^77 large.
#[derive(Clone, Copy)]
pub enum Work {
    MulSmall,
    MulLarge,
    DivSmall,
    DivLarge,
    Exp,
    Dense,
}

impl Work {
    pub fn named(name: &str) -> Option<Work> {
        match name {
            "mul-small" => Some(Work::MulSmall),
            "mul-large" => Some(Work::MulLarge),
            "div-small" => Some(Work::DivSmall),
            "div-large" => Some(Work::DivLarge),
            "exp" => Some(Work::Exp),
            "dense" => Some(Work::Dense),
            _ => None,
        }
    }

    /// The wrapping sum of so many results.
    pub fn sum(self, alloc: Global, count: u64) -> Result<u64, AllocError> {
        Ok(match self {
            Work::MulSmall => mul_small(count),
            Work::MulLarge => mul_large(count),
            Work::DivSmall => div_small(count),
            Work::DivLarge => div_large(count),
            Work::Exp => exps(count),
            Work::Dense => return dense(alloc, count),
        })
    }
}

/// The low 64 bits of a result, where a fault counts as 1.
fn low(answer: Result<Fix, NumFault>) -> u64 {
    match answer {
        Ok(number) => (number.units().cast_unsigned() & 0xffff_ffff_ffff_ffff) as u64,
        Err(_) => 1,
    }
}

/// A divisor, where 0 counts as one unit.
fn divisor(number: Fix) -> Fix
    ensures { 0 < unsigned_abs result }
{
    if number.units() == 0 {
        Fix::exactly(1)
    } else {
        number
    }
}

fn mul_small(count: u64) -> u64 {
    let mut numbers = Numbers::new();
    let mut sum = 0u64;
    for _ in 0..count {
        let a = numbers.small();
        let b = numbers.small();
        sum = sum.wrapping_add(low(a.mul(b)));
    }
    sum
}

fn mul_large(count: u64) -> u64 {
    let mut numbers = Numbers::new();
    let mut sum = 0u64;
    for _ in 0..count {
        let a = numbers.large();
        let b = numbers.small();
        sum = sum.wrapping_add(low(a.mul(b)));
    }
    sum
}

fn div_small(count: u64) -> u64 {
    let mut numbers = Numbers::new();
    let mut sum = 0u64;
    for _ in 0..count {
        let a = numbers.small();
        let b = divisor(numbers.small());
        sum = sum.wrapping_add(low(a.div(b)));
    }
    sum
}

fn div_large(count: u64) -> u64 {
    let mut numbers = Numbers::new();
    let mut sum = 0u64;
    for _ in 0..count {
        let a = numbers.large();
        let b = divisor(numbers.large());
        sum = sum.wrapping_add(low(a.div(b)));
    }
    sum
}

fn exps(count: u64) -> u64 {
    let mut numbers = Numbers::new();
    let mut sum = 0u64;
    for _ in 0..count {
        sum = sum.wrapping_add(low(exp(numbers.exponent())));
    }
    sum
}
