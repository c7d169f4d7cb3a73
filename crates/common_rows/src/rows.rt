//! The prepared rows of a design.
ghost use Rattle.std.specs.Prelude.{◌≡◌, ◌+◌, ◌<◌, ◌≤◌, length, map, take, slice_set, IfOk};
ghost use Rattle.fix_core.specs.Passes.{and_then, each, answer, joined};
ghost use Rattle.flat_design.specs.Order.{unknowns, unknown_count};
ghost use Rattle.design_meaning.specs.Newton.{linear_row};
ghost use Rattle.design_rules.specs.Design.{IsDesign};
ghost use Rattle.equation_values.specs.Reading.{readings_in};
ghost use Rattle.equation_values.specs.Residuals.{residual_at};
ghost use Rattle.common_rows.specs.Entries.{entries_from};
ghost use Rattle.common_rows.specs.Forms.{row_by, slope_by, structural_set};

use crate::entries::{Entry, entries_of, write_entries};
use crate::forms::{CommonForm, forms_of};
use crate::order::unknowns;
use crate::residual::residual;
use design_meaning::EvalFault;
use equation_values::EquationValues;
use fix_core::Fix;
use flat_design::Flat;
use flat_expr::Unknown;
use sparse_rows::SparseRows;
use sqlite_items::Items;
use std::alloc::{AllocError, Global};
use std::marker::Model;

/// The rows that every set of a design has besides the explicit equations, with their slopes. Contracts see the design's
/// lists.
#[derive(Drop)]
pub struct CommonRows<'a> {
    flat: &'a Flat,
    unknowns: Items<Unknown>,
    forms: Items<CommonForm>,
    entries: Items<Items<Entry>>,
}

impl<'a> Model for CommonRows<'a> {
    ghost use Rattle.flat_design.specs.declared.objects.Objects.{Objects};
    ghost use Rattle.flat_design.specs.contracts.objects.Objects as lists;

    ghost Value = { Objects };

    ghost coded = { lists.the_row.coded };

    ghost use Rattle.common_rows.specs.Prepared.{ArePrepared};

    ghost view = { λ a. a.flat.now };

    ghost invariant = { λ a. ArePrepared a.flat.now a.unknowns a.forms a.entries };
}

/// Writes the row of an equation with these entries.
fn fill_row(
    form: &CommonForm,
    entries: &[Entry],
    unknowns: &[Unknown],
    values: &EquationValues<'_>,
    rows: &mut SparseRows,
    row: usize,
) -> Result<(), EvalFault>
    requires entries { entries.now ≡ entries_from (slope_by form.now) 0 unknowns.now }
    requires size { length unknowns.now ≡ length rows.old }
    requires row { row < length rows.old }
    ensures answer { and_then (λ own. Ok (slice_set rows.old row own)) (linear_row unknowns.now (readings_in values.now) (row_by form.now)) ≡ answer result rows.new }
    ensures count { length rows.new ≡ length rows.old }
{
    let residual = residual(form, values)?;
    rows.clear(row);
    write_entries(entries, rows, row);
    rows.set(row, unknowns.len(), residual);
    Ok(())
}

/// Writes the rows of equations with their entries from a row on.
fn fill_rows(
    forms: &[CommonForm],
    entries: &[Items<Entry>],
    unknowns: &[Unknown],
    values: &EquationValues<'_>,
    rows: &mut SparseRows,
    first: usize,
) -> Result<(), EvalFault>
    requires entries { entries.now ≡ map (λ form. entries_from (slope_by form) 0 unknowns.now) forms.now }
    requires size { length unknowns.now ≡ length rows.old }
    requires room { first + length forms.now ≤ length rows.old }
    ensures answer { joined (take first rows.old) (each (linear_row unknowns.now (readings_in values.now)) (map row_by forms.now)) ≡ answer result (take (first + length forms.now) rows.new) }
    ensures count { length rows.new ≡ length rows.old }
{
    for i in 0..forms.len() {
        fill_row(
            &forms[i],
            entries[i].as_slice(),
            unknowns,
            values,
            rows,
            first + i,
        )?;
    }
    Ok(())
}

/// Writes the residuals of equations from a place on.
fn write_each(
    forms: &[CommonForm],
    values: &EquationValues<'_>,
    out: &mut [Fix],
    first: usize,
) -> Result<(), EvalFault>
    requires { first + length forms.now ≤ length out.old }
    ensures answer { joined (take first out.old) (each (residual_at (readings_in values.now)) (map row_by forms.now)) ≡ answer result (take (first + length forms.now) out.new) }
    ensures count { length out.new ≡ length out.old }
{
    for i in 0..forms.len() {
        out[first + i] = residual(&forms[i], values)?;
    }
    Ok(())
}

impl<'a> CommonRows<'a> {
    /// Prepares the rows of a design.
    pub fn new(alloc: Global, flat: &'a Flat) -> Result<CommonRows<'a>, AllocError>
        requires { IsDesign flat.now }
        ensures { IfOk result (λ rows. rows ≡ flat.now) }
    {
        let unknowns = unknowns(alloc, flat)?;
        let forms = forms_of(alloc, flat)?;
        let entries = entries_of(alloc, forms.as_slice(), unknowns.as_slice())?;
        Ok(CommonRows {
            flat,
            unknowns,
            forms,
            entries,
        })
    }

    /// The unknowns of the design in their order.
    pub fn unknowns(&self) -> &[Unknown]
        ensures { result.now ≡ unknowns self.now }
    {
        self.unknowns.as_slice()
    }

    /// How many rows there are.
    pub fn len(&self) -> usize
        ensures { result ≡ length (structural_set self.now) }
    {
        self.forms.len()
    }

    /// Writes the rows of the linear system from a row on, or answers the first fault.
    pub fn fill(
        &self,
        values: &EquationValues<'_>,
        rows: &mut SparseRows,
        first: usize,
    ) -> Result<(), EvalFault>
        requires size { length rows.old ≡ unknown_count self.now }
        requires room { first + length (structural_set self.now) ≤ length rows.old }
        ensures answer { joined (take first rows.old) (each (linear_row (unknowns self.now) (readings_in values.now)) (structural_set self.now)) ≡ answer result (take (first + length (structural_set self.now)) rows.new) }
        ensures count { length rows.new ≡ length rows.old }
    {
        fill_rows(
            self.forms.as_slice(),
            self.entries.as_slice(),
            self.unknowns.as_slice(),
            values,
            rows,
            first,
        )
    }

    /// Writes the residuals from a place on, or answers the first fault.
    pub fn write_residuals(
        &self,
        values: &EquationValues<'_>,
        out: &mut [Fix],
        first: usize,
    ) -> Result<(), EvalFault>
        requires { first + length (structural_set self.now) ≤ length out.old }
        ensures answer { joined (take first out.old) (each (residual_at (readings_in values.now)) (structural_set self.now)) ≡ answer result (take (first + length (structural_set self.now)) out.new) }
        ensures count { length out.new ≡ length out.old }
    {
        write_each(self.forms.as_slice(), values, out, first)
    }
}
