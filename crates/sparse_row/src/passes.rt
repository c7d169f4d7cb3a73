//! Passes over entries that rise.
ghost use Rattle.std.specs.Prelude.{◌≡◌, ◌+◌, ◌-◌, ◌<◌, ◌≤◌, ◌++◌, [], true, vec_len, vec_capacity};
ghost use Rattle.fix_core.specs.Passes.{answer, joined};
ghost use Rattle.lin_solve.specs.Elimination.{minus_row};
ghost use Rattle.sparse_row.specs.Entries.{filled, is_sparse, before};
ghost use Rattle.sparse_row.specs.Passes.{first_column as first_column_of, head_value as head_value_of, behind as behind_of};

use crate::entry::Entry;
use fix_core::{Fix, NumFault};

/// The column of the first entry, or the width where there is none.
#[tactic(auto, unfolding(crate::specs::Passes::first_column))]
fn first_column(entries: &[Entry], width: usize) -> usize
    ensures { result ≡ first_column_of width entries.now }
{
    match entries {
        [] => width,
        [first, ..] => first.column,
    }
}

/// The value in a column that is the first one or lies before it.
#[tactic(auto, unfolding(crate::specs::Passes::head_value))]
fn head_value(entries: &[Entry], column: usize) -> Fix
    ensures { result ≡ head_value_of column entries.now }
{
    match entries {
        [first, ..] if first.column == column => first.value,
        _ => Fix::exactly(0),
    }
}

/// The entries behind that column.
#[tactic(auto, unfolding(crate::specs::Passes::behind))]
fn behind(entries: &[Entry], column: usize) -> &[Entry]
    ensures { result.now ≡ behind_of column entries.now }
{
    match entries {
        [first, more @ ..] if first.column == column => more,
        _ => entries,
    }
}

/// Appends an entry, where it isn't 0.
#[tactic(auto, using(crate::proofs::Edits::parts))]
pub fn append(entries: &mut Vec<Entry>, column: usize, value: Fix)
    requires room { vec_len entries.old < vec_capacity entries.old }
    ensures items { entries.new.items ≡ entries.old.items ++ before column value [] }
    ensures room { vec_capacity entries.old ≤ vec_capacity entries.new }
{
    if value.magnitude() != 0 {
        let _ = entries.push(Entry { column, value });
    }
}

/// Appends the entries of a row that loses `factor` times the pivot row, from a column on.
pub fn merge(
    factor: Fix,
    pivot: &[Entry],
    row: &[Entry],
    from: usize,
    width: usize,
    out: &mut Vec<Entry>,
) -> Result<(), NumFault>
    requires pivot { is_sparse from width pivot.now ≡ true }
    requires row { is_sparse from width row.now ≡ true }
    requires out { is_sparse 0 from out.old.items ≡ true }
    requires from { from ≤ width }
    requires room { width ≤ vec_capacity out.old }
    ensures answer { joined (filled 0 from out.old.items) (minus_row factor (filled from (width - from) pivot.now) (filled from (width - from) row.now)) ≡ answer result (filled 0 width out.new.items) }
    ensures sparse { is_sparse 0 width out.new.items ≡ true }
    ensures room { width ≤ vec_capacity out.new }
{
    let column = first_column(pivot, width).min(first_column(row, width));
    if column == width {
        return Ok(());
    }
    let loss = factor.mul(head_value(pivot, column))?;
    let value = head_value(row, column).sub(loss)?;
    append(out, column, value);
    let pivot = behind(pivot, column);
    let row = behind(row, column);
    merge(factor, pivot, row, column + 1, width, out)
}
