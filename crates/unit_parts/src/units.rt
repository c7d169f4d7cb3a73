//! Entities, and architectures up to their statements (IEEE 1076, 3.2 and 3.3).
ghost use Rattle.std.specs.Prelude.{◌≡◌, OnOk};
ghost use Rattle.std.specs.List.{list_any};
ghost use Rattle.unit_meaning.specs.Units as spec;
ghost use Rattle.unit_index.specs.Index.{known};
ghost use Rattle.expr_types.specs.Known.{IsSoundScope};

use crate::beginning::begin;
use crate::labelling::labels;
use ams_token::Names;
use ams_tree::{Architecture, Entity};
use decl_types::declarations;
use elab_meaning::Book;
use interface_types::interface;
use std::alloc::{AllocError, Global};
use unit_index::Units;

/// Reads an entity. `before` are the units before it.
pub fn entity_checked(
    alloc: Global,
    names: &Names,
    before: &Units<'_>,
    entity: &Entity,
    book: &mut Book,
) -> Result<(), AllocError>
    ensures ok { OnOk result (book.new ≡ spec.entity_checked names.now (known before.now) entity.now book.old) }
    ensures sound { OnOk result (IsSoundScope book.new.scope) }
{
    let there = before.has_entity(entity.name.number);
    begin(alloc, names, entity.name, entity.end, there, book)?;
    interface(alloc, names, entity, book)
}

/// Begins an architecture. `before` are the units before it.
pub fn begin_architecture(
    alloc: Global,
    names: &Names,
    before: &Units<'_>,
    architecture: &Architecture,
    book: &mut Book,
) -> Result<(), AllocError>
    ensures ok { OnOk result (book.new ≡ spec.in_region (spec.start_of names.now) (spec.end_name architecture.now.name architecture.now.end (spec.repeated architecture.now.name (list_any (spec.is_architecture architecture.now.entity.number architecture.now.name.number) (known before.now)) book.old.notes)) book.old) }
    ensures sound { OnOk result (IsSoundScope book.new.scope) }
{
    let (entity, name) = (architecture.entity, architecture.name);
    let there = before.has_architecture(entity.number, name.number);
    begin(alloc, names, name, architecture.end, there, book)
}

/// Reads the declarations of an architecture and the labels of its statements.
pub fn opened(
    alloc: Global,
    names: &Names,
    architecture: &Architecture,
    book: &mut Book,
) -> Result<(), AllocError>
    requires { IsSoundScope book.old.scope }
    ensures ok { OnOk result (book.new ≡ spec.opened names.now architecture.now book.old) }
    ensures sound { OnOk result (IsSoundScope book.new.scope) }
{
    declarations(alloc, names, architecture.declarations.as_slice(), book)?;
    labels(architecture.statements.as_slice(), book)
}
