//! Full linear systems.
ghost use Rattle.std.specs.Prelude.{◌≡◌, length};

use crate::numbers::Numbers;
use ams_point::Point;
use fix_core::Fix;
use lin_solve::{Rows, solve};
use std::alloc::{AllocError, Global};

/// How many unknowns a system has.
const SIZE: usize = 45;

/// Fills a system row by row, with 2^45 units more on the diagonal, and then its right sides.
fn fill(numbers: &mut Numbers, rows: &mut Rows)
    requires { length rows.old ≡ 45 }
    ensures { length rows.new ≡ 45 }
{
    for row in 0..SIZE {
        for column in 0..SIZE {
            let entry = numbers.small();
            let entry = if row == column {
                Fix::exactly(entry.units() + 35_184_372_088_832)
            } else {
                entry
            };
            rows.set(row, column, entry);
        }
    }
    for row in 0..SIZE {
        rows.set(row, SIZE, numbers.small());
    }
}

/// The wrapping sum of the low 64 bits of a point's values.
fn low_sum(point: &Point) -> u64 {
    let mut sum = 0u64;
    for x in point.as_slice() {
        let low = (x.units().cast_unsigned() & 0xffff_ffff_ffff_ffff) as u64;
        sum = sum.wrapping_add(low);
    }
    sum
}

/// The wrapping sum of the unknowns of so many systems, where a fault counts as 1.
pub fn dense(alloc: Global, count: u64) -> Result<u64, AllocError> {
    let mut rows = Rows::new(alloc, SIZE)?;
    let mut out = Point::new(alloc, SIZE)?;
    let mut numbers = Numbers::new();
    let mut sum = 0u64;
    for _ in 0..count {
        if rows.len() == SIZE && out.len() == SIZE {
            fill(&mut numbers, &mut rows);
            match solve(&mut rows, &mut out) {
                Ok(()) => sum = sum.wrapping_add(low_sum(&out)),
                Err(_) => sum = sum.wrapping_add(1),
            }
        }
    }
    Ok(sum)
}
