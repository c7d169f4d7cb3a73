//! The names of a unit, and the region round it (IEEE 1076, 3.2.1, 3.3.1 and 12.1).
ghost use Rattle.std.specs.Prelude.{◌≡◌, OnOk};
ghost use Rattle.unit_meaning.specs.Units as spec;
ghost use Rattle.expr_types.specs.Known.{IsSoundScope};

use ams_token::Names;
use ams_tree::Name;
use elab_meaning::{Book, Cause, Notes};
use expr_types::note;
use start_scope::start_of;
use std::alloc::{AllocError, Global};

/// Notes a unit of whose kind and name one stands before.
fn note_repeated(name: Name, there: bool, notes: &mut Notes) -> Result<(), AllocError>
    ensures { OnOk result (notes.new ≡ spec.repeated name there notes.old) }
{
    if there {
        note(notes, name.place, Cause::Duplicate(name.number))
    } else {
        Ok(())
    }
}

/// Notes a name behind `end` that isn't that of the unit.
fn note_end(name: Name, end: Option<Name>, notes: &mut Notes) -> Result<(), AllocError>
    ensures { OnOk result (notes.new ≡ spec.end_name name end notes.old) }
{
    let Some(end) = end else {
        return Ok(());
    };
    if name.number == end.number {
        Ok(())
    } else {
        note(notes, end.place, Cause::WrongType)
    }
}

/// Begins a unit: notes what is wrong with its names, and gives the book the scope that is round each unit.
pub fn begin(
    alloc: Global,
    names: &Names,
    name: Name,
    end: Option<Name>,
    there: bool,
    book: &mut Book,
) -> Result<(), AllocError>
    ensures ok { OnOk result (book.new ≡ spec.in_region (spec.start_of names.now) (spec.end_name name end (spec.repeated name there book.old.notes)) book.old) }
    ensures sound { OnOk result (IsSoundScope book.new.scope) }
{
    note_repeated(name, there, &mut book.notes)?;
    note_end(name, end, &mut book.notes)?;
    book.scope = start_of(alloc, names)?;
    Ok(())
}
