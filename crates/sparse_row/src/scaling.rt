//! What scaling asks of entries.
ghost use Rattle.std.specs.Prelude.{◌≡◌, ℕ, true};
ghost use Rattle.fix_core.specs.Passes.{answer, each};
ghost use Rattle.sparse_row.specs.Entries.{is_sparse};
ghost use Rattle.sparse_row.specs.Reads.{largest_in, tenfold_entry};

use crate::entry::Entry;
use fix_core::NumFault;

/// The largest magnitude in the columns before one.
#[tactic(auto, using(crate::proofs::Raising::largests))]
pub fn largest_before(entries: &[Entry], column: usize) -> u128
    ensures { result ≡ largest_in column entries.now }
{
    let mut largest = 0;
    for entry in entries {
        if entry.column < column {
            largest = entry.value.magnitude().max(largest);
        }
    }
    largest
}

/// Each value times ten.
pub fn raise(entries: &mut [Entry]) -> Result<(), NumFault>
    ensures answer { each tenfold_entry entries.old ≡ answer result entries.new }
    ensures sparse { (from width : ℕ) → is_sparse from width entries.old ≡ true → is_sparse from width entries.new ≡ true }
{
    for i in 0..entries.len() {
        let entry = entries[i];
        let value = entry.value.tenfold()?;
        entries[i] = Entry {
            column: entry.column,
            value,
        };
    }
    Ok(())
}
