//! Architectures (IEEE 1076, 3.3).
ghost use Rattle.std.specs.Prelude.{◌≡◌, Some, OnOk};
ghost use Rattle.elab_meaning.specs.Declarations.{with_notes};
ghost use Rattle.unit_meaning.specs.Units as spec;
ghost use Rattle.unit_index.specs.Index.{known};
ghost use Rattle.expr_types.specs.Known.{IsSoundScope};

use crate::statements::judge_statements;
use ams_token::Names;
use ams_tree::{Architecture, Entity};
use dot_names::selectors_of;
use elab_meaning::{Book, Cause};
use expr_types::note;
use interface_types::interface;
use name_scope::Scope;
use statement_parts::Setting;
use std::alloc::{AllocError, Global};
use unit_index::Units;
use unit_parts::{begin_architecture, opened};

/// Reads the statements behind the declarations.
fn judge_body(
    alloc: Global,
    names: &Names,
    start: &Scope,
    units: &Units<'_>,
    architecture: &Architecture,
    book: &mut Book,
) -> Result<(), AllocError>
    requires start { start.now ≡ spec.start_of names.now }
    requires scope { IsSoundScope book.old.scope }
    ensures { OnOk result (book.new ≡ with_notes (spec.judged_body names.now (known units.now) architecture.now book.old) book.old) }
{
    let all = architecture.statements.as_slice();
    let selectors = selectors_of(alloc, all)?;
    let enumerations = book.objects.enumerations.as_slice();
    let setting = Setting::new(names, enumerations, selectors.as_slice());
    let (scope, notes) = (&mut book.scope, &mut book.notes);
    judge_statements(alloc, &setting, start, units, scope, all, notes)
}

fn body_checked(
    alloc: Global,
    names: &Names,
    start: &Scope,
    units: &Units<'_>,
    architecture: &Architecture,
    book: &mut Book,
) -> Result<(), AllocError>
    requires start { start.now ≡ spec.start_of names.now }
    requires scope { IsSoundScope book.old.scope }
    ensures { OnOk result (book.new ≡ spec.body_checked names.now (known units.now) architecture.now book.old) }
{
    opened(alloc, names, architecture, book)?;
    judge_body(alloc, names, start, units, architecture, book)
}

/// An architecture of this entity.
fn of_entity(
    alloc: Global,
    names: &Names,
    start: &Scope,
    units: &Units<'_>,
    architecture: &Architecture,
    entity: &Entity,
    book: &mut Book,
) -> Result<(), AllocError>
    requires start { start.now ≡ spec.start_of names.now }
    requires scope { IsSoundScope book.old.scope }
    ensures { OnOk result (book.new ≡ spec.of_entity names.now (known units.now) architecture.now (Some entity.now) book.old) }
{
    interface(alloc, names, entity, book)?;
    body_checked(alloc, names, start, units, architecture, book)
}

/// Reads an architecture. `before` are the units before it, and `units` are those of the file.
pub fn architecture_checked(
    alloc: Global,
    names: &Names,
    start: &Scope,
    units: &Units<'_>,
    before: &Units<'_>,
    architecture: &Architecture,
    book: &mut Book,
) -> Result<(), AllocError>
    requires { start.now ≡ spec.start_of names.now }
    ensures { OnOk result (book.new ≡ spec.architecture_checked names.now (known units.now) (known before.now) architecture.now book.old) }
{
    begin_architecture(alloc, names, before, architecture, book)?;
    let name = architecture.entity;
    match before.entity(name.number) {
        Some(entity) => of_entity(alloc, names, start, units, architecture, entity, book),
        None => note(&mut book.notes, name.place, Cause::Unknown(name.number)),
    }
}
