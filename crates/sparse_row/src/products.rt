//! Sums of products with entries.
ghost use Rattle.std.specs.Prelude.{◌≡◌, length, true};
ghost use Rattle.std.specs.List.{All};
ghost use Rattle.fix_core.specs.Fixed.{IsInRange};
ghost use Rattle.fix_core.specs.Passes.{answer};
ghost use Rattle.sparse_row.specs.Entries.{is_sparse};
ghost use Rattle.sparse_row.specs.Reads.{left_of, lost_in};

use crate::entry::Entry;
use fix_core::{Fix, NumFault};

/// A sum less each value behind a column times the number of its column, where there is one.
#[tactic(auto, using(crate::proofs::Multiples::sums))]
pub fn substitute(
    entries: &[Entry],
    column: usize,
    sum: Fix,
    numbers: &[Fix],
) -> Result<Fix, NumFault>
    ensures { result ≡ left_of column numbers.now sum entries.now }
{
    let mut sum = sum;
    for entry in entries {
        if column < entry.column && entry.column < numbers.len() {
            let loss = entry.value.mul(numbers[entry.column])?;
            sum = sum.sub(loss)?;
        }
    }
    Ok(sum)
}

/// Each number loses `factor` times the value of its column.
#[tactic(auto, using(crate::proofs::Multiples::losses))]
pub fn subtract(entries: &[Entry], factor: Fix, numbers: &mut [Fix]) -> Result<(), NumFault>
    requires columns { is_sparse 0 (length numbers.old) entries.now ≡ true }
    requires within { All IsInRange numbers.old }
    ensures answer { lost_in factor entries.now numbers.old ≡ answer result numbers.new }
    ensures within { All IsInRange numbers.new }
{
    for entry in entries {
        let loss = factor.mul(entry.value)?;
        numbers[entry.column] = numbers[entry.column].sub(loss)?;
    }
    Ok(())
}
