//! Labels of statements (IEEE 1076, 12.1).
ghost use Rattle.std.specs.Prelude.{◌≡◌, OnOk};
ghost use Rattle.unit_meaning.specs.Units as spec;
ghost use Rattle.expr_types.specs.Known.{IsSoundScope};
ghost use Rattle.unit_parts.specs.Labelled as parts;

use ams_tree::{Concurrent, Name};
use decl_names::declare;
use elab_meaning::Book;
use name_scope::Thing;
use std::alloc::AllocError;

fn label(name: &Option<Name>, book: &mut Book) -> Result<(), AllocError>
    requires { IsSoundScope book.old.scope }
    ensures ok { OnOk result (book.new ≡ parts.labelled book.old name.now) }
    ensures sound { OnOk result (IsSoundScope book.new.scope) }
{
    match name {
        Some(name) => declare(*name, Thing::Label, book),
        None => Ok(()),
    }
}

/// Declares the labels of the statements, which are names of the architecture.
pub fn labels(all: &[Concurrent], book: &mut Book) -> Result<(), AllocError>
    requires { IsSoundScope book.old.scope }
    ensures ok { OnOk result (book.new ≡ spec.labels all.now book.old) }
    ensures sound { OnOk result (IsSoundScope book.new.scope) }
{
    for written in all {
        label(&written.label, book)?;
    }
    Ok(())
}
