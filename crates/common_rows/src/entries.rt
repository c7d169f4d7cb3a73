//! The entries of a row that aren't 0.
ghost use Rattle.std.specs.Prelude.{◌≡◌, ◌+◌, ◌<◌, ◌≤◌, ◌++◌, [], ℤ, length, map, slice_index_or, slice_set, IfOk, OnOk};
ghost use Rattle.std.specs.List.{All};
ghost use Rattle.common_rows.specs.Forms.{HasFewEnds, slope_by};
ghost use Rattle.common_rows.specs.Entries.{kept, entries_from, with_entries};

use crate::forms::CommonForm;
use crate::slopes::slope;
use fix_core::Fix;
use flat_expr::Unknown;
use sparse_rows::SparseRows;
use sqlite_items::Items;
use std::alloc::{AllocError, Global};

/// An entry of a row: the place of an unknown, and the slope by it.
#[derive(Clone, Copy)]
pub struct Entry {
    pub place: usize,
    pub slope: Fix,
}

/// Adds an entry unless it is 0.
fn add_entry(entries: &mut Items<Entry>, place: usize, slope: Fix) -> Result<(), AllocError>
    ensures { OnOk result (entries.new ≡ entries.old ++ kept place slope) }
{
    if slope.magnitude() != 0 {
        entries.push(Entry { place, slope })?;
    }
    Ok(())
}

/// The entries of an equation.
fn form_entries(
    alloc: Global,
    form: &CommonForm,
    unknowns: &[Unknown],
) -> Result<Items<Entry>, AllocError>
    requires { HasFewEnds form.now }
    ensures { IfOk result (λ entries. entries ≡ entries_from (slope_by form.now) 0 unknowns.now) }
{
    let mut entries = Items::new(alloc);
    for i in 0..unknowns.len() {
        add_entry(&mut entries, i, slope(form, unknowns[i]))?;
    }
    Ok(entries)
}

/// The entries of each equation.
pub fn entries_of(
    alloc: Global,
    forms: &[CommonForm],
    unknowns: &[Unknown],
) -> Result<Items<Items<Entry>>, AllocError>
    requires { All HasFewEnds forms.now }
    ensures { IfOk result (λ all. all ≡ map (λ form. entries_from (slope_by form) 0 unknowns.now) forms.now) }
{
    let mut all = Items::new(alloc);
    for form in forms {
        all.push(form_entries(alloc, form, unknowns)?)?;
    }
    Ok(all)
}

/// Writes entries into a row.
pub fn write_entries(entries: &[Entry], rows: &mut SparseRows, row: usize)
    requires places { All (λ entry. entry.place < length rows.old) entries.now }
    requires row { row < length rows.old }
    ensures written { rows.new ≡ slice_set rows.old row (with_entries entries.now (slice_index_or rows.old row [])) }
    ensures count { length rows.new ≡ length rows.old }
{
    for i in 0..entries.len() {
        let entry = entries[i];
        rows.set(row, entry.place, entry.slope);
    }
}
