//! Files (IEEE 1076, 13.1).
ghost use Rattle.std.specs.Prelude.{◌≡◌, [], take, ◌+◌, IfOk, OnOk};
ghost use Rattle.unit_meaning.specs.Units as spec;
ghost use Rattle.unit_index.specs.Index.{known};

use ams_token::Names;
use ams_tree::{DesignFile, DesignUnit};
use elab_meaning::{Book, Fault};
use fault_order::{Stage, first_fault};
use name_scope::Scope;
use start_scope::{first_book, start_of};
use std::alloc::{AllocError, Global};
use unit_bodies::architecture_checked;
use unit_index::Units;
use unit_parts::entity_checked;

/// The first broken rules of a file in text order: that which the check of types answers, and that which the check of
/// natures does.
#[derive(Clone, Copy, Debug, PartialEq, Eq)]
pub struct FileFaults {
    pub types: Option<Fault>,
    pub natures: Option<Fault>,
}

fn unit_checked(
    alloc: Global,
    names: &Names,
    start: &Scope,
    units: &Units<'_>,
    before: &Units<'_>,
    unit: &DesignUnit,
    book: &mut Book,
) -> Result<(), AllocError>
    requires { start.now ≡ spec.start_of names.now }
    ensures { OnOk result (book.new ≡ spec.unit_checked names.now (known units.now) (known before.now) unit.now book.old) }
{
    match unit {
        DesignUnit::Entity(entity) => entity_checked(alloc, names, before, entity, book),
        DesignUnit::Architecture(architecture) => {
            architecture_checked(alloc, names, start, units, before, architecture, book)
        }
        DesignUnit::Library(_) | DesignUnit::Use(_) => Ok(()),
    }
}

/// Reads the units of a file in their order.
fn units_checked(
    alloc: Global,
    names: &Names,
    start: &Scope,
    units: &Units<'_>,
    all: &[DesignUnit],
    book: &mut Book,
) -> Result<(), AllocError>
    requires { start.now ≡ spec.start_of names.now }
    ensures { OnOk result (book.new ≡ spec.units_checked names.now (known units.now) [] all.now book.old) }
{
    let mut before = Units::new(alloc, all);
    for unit in all {
        unit_checked(alloc, names, start, units, &before, unit, book)?;
        before = before.with_next()?;
    }
    Ok(())
}

fn book_of_units(
    alloc: Global,
    names: &Names,
    start: &Scope,
    units: &Units<'_>,
    all: &[DesignUnit],
) -> Result<Book, AllocError>
    requires { start.now ≡ spec.start_of names.now }
    ensures { IfOk result (λ book. book ≡ spec.units_checked names.now (known units.now) [] all.now (spec.first_book names.now)) }
{
    let mut book = first_book(alloc, names)?;
    match units_checked(alloc, names, start, units, all, &mut book) {
        Ok(()) => Ok(book),
        Err(error) => {
            drop(book);
            Err(error)
        }
    }
}

fn book_from(
    alloc: Global,
    names: &Names,
    start: &Scope,
    all: &[DesignUnit],
) -> Result<Book, AllocError>
    requires { start.now ≡ spec.start_of names.now }
    ensures { IfOk result (λ book. book ≡ spec.units_checked names.now all.now [] all.now (spec.first_book names.now)) }
{
    let units = Units::of(alloc, all)?;
    let book = book_of_units(alloc, names, start, &units, all);
    drop(units);
    book
}

/// What the units of a file are read to.
fn file_checked(alloc: Global, names: &Names, all: &[DesignUnit]) -> Result<Book, AllocError>
    ensures { IfOk result (λ book. book ≡ spec.units_checked names.now all.now [] all.now (spec.first_book names.now)) }
{
    let start = start_of(alloc, names)?;
    let book = book_from(alloc, names, &start, all);
    drop(start);
    book
}

/// Reads a file once for the check of its types and for that of its natures.
pub fn check_file(alloc: Global, names: &Names, file: &DesignFile) -> Result<FileFaults, AllocError>
    ensures types { IfOk result (λ faults. faults.types ≡ spec.type_fault names.now file.now.units) }
    ensures natures { IfOk result (λ faults. faults.natures ≡ spec.nature_fault names.now file.now.units) }
{
    let book = file_checked(alloc, names, file.units.as_slice())?;
    let faults = book.notes.faults.as_slice();
    let types = first_fault(Stage::Types, faults);
    let natures = first_fault(Stage::Natures, faults);
    drop(book);
    Ok(FileFaults { types, natures })
}
