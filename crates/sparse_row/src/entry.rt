//! Entries of a row, by their columns.
ghost use Rattle.std.specs.Prelude.{◌≡◌, ◌<◌, ◌≤◌, ℕ, true, false, length, vec_len, vec_capacity, IsTrue};
ghost use Rattle.sparse_row.specs.Entries.{is_sparse, value_in, place_in, has_in, with_entry};

use fix_core::Fix;

/// An entry with its column.
#[derive(Clone, Copy, PartialEq, Eq)]
pub struct Entry {
    pub column: usize,
    pub value: Fix,
}

/// The value in a column, which is 0 where no entry has it.
#[tactic(auto, using(crate::proofs::Lookup::value_end))]
pub fn value_at(entries: &[Entry], column: usize) -> Fix
    ensures { result ≡ value_in column entries.now }
{
    for entry in entries {
        if entry.column == column {
            return entry.value;
        }
    }
    Fix::exactly(0)
}

/// How many entries stand before a column.
#[tactic(auto, using(crate::proofs::Lookup::place_end))]
pub fn place_of(entries: &[Entry], column: usize) -> usize
    ensures { result ≡ place_in column entries.now }
{
    let mut place = 0;
    while place < entries.len() && entries[place].column < column {
        place += 1;
    }
    place
}

/// Whether an entry has the column, which stands at this place if so.
fn has_at(entries: &[Entry], column: usize, place: usize) -> bool
    requires { place ≡ place_in column entries.now }
    ensures { result ≡ has_in column entries.now }
{
    place < entries.len() && entries[place].column == column
}

/// Whether a column is behind those of all entries, where they rise.
pub fn is_behind(entries: &[Entry], column: usize) -> bool
    ensures { IsTrue result → (from width : ℕ) → is_sparse from width entries.now ≡ true → place_in column entries.now ≡ length entries.now }
{
    if entries.is_empty() {
        return true;
    }
    let end = entries.len() - 1;
    entries[end].column < column
}

/// Writes an entry in its place. One that is 0 isn't kept.
pub fn write(entries: &mut Vec<Entry>, column: usize, value: Fix)
    requires room { has_in column entries.old.items ≡ false → vec_len entries.old < vec_capacity entries.old }
    ensures items { entries.new.items ≡ with_entry column value entries.old.items }
    ensures room { vec_capacity entries.old ≤ vec_capacity entries.new }
{
    let place = place_of(entries.as_slice(), column);
    let is_kept = has_at(entries.as_slice(), column, place);
    if value.magnitude() == 0 {
        if is_kept {
            entries.remove(place);
        }
    } else if is_kept {
        entries[place] = Entry { column, value };
    } else {
        let _ = entries.insert(place, Entry { column, value });
    }
}
