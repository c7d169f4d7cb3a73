//! The entries before a column.
ghost use Rattle.std.specs.Prelude.{◌≡◌, ◌+◌, ◌≤◌, ◌++◌, length, vec_len, vec_capacity};
ghost use Rattle.sparse_row.specs.Reads.{cut};

use crate::entry::{Entry, place_of};

/// The entries before a column.
pub fn front(entries: &[Entry], column: usize) -> &[Entry]
    ensures { result.now ≡ cut column entries.now }
{
    &entries[..place_of(entries, column)]
}

/// Appends entries.
pub fn append_all(entries: &[Entry], out: &mut Vec<Entry>)
    requires room { vec_len out.old + length entries.now ≤ vec_capacity out.old }
    ensures items { out.new.items ≡ out.old.items ++ entries.now }
    ensures room { vec_capacity out.old ≤ vec_capacity out.new }
{
    for entry in entries {
        let _ = out.push(*entry);
    }
}
