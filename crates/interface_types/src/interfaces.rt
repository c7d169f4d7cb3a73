//! Interfaces of entities.
ghost use Rattle.std.specs.Prelude.{◌≡◌, OnOk};
ghost use Rattle.std.specs.List.{fold};
ghost use Rattle.unit_meaning.specs.Interfaces as spec;
ghost use Rattle.expr_types.specs.Known.{IsSoundScope};

use crate::generics::generic;
use crate::ports::port;
use ams_token::Names;
use ams_tree::{Entity, Generic, Port};
use elab_meaning::Book;
use std::alloc::{AllocError, Global};

fn generics(
    alloc: Global,
    names: &Names,
    all: &[Generic],
    book: &mut Book,
) -> Result<(), AllocError>
    requires { IsSoundScope book.old.scope }
    ensures ok { OnOk result (book.new ≡ fold (spec.generic names.now) book.old all.now) }
    ensures sound { OnOk result (IsSoundScope book.new.scope) }
{
    for one in all {
        generic(alloc, names, one, book)?;
    }
    Ok(())
}

fn ports(alloc: Global, names: &Names, all: &[Port], book: &mut Book) -> Result<(), AllocError>
    requires { IsSoundScope book.old.scope }
    ensures ok { OnOk result (book.new ≡ fold (spec.port_declaration names.now) book.old all.now) }
    ensures sound { OnOk result (IsSoundScope book.new.scope) }
{
    for one in all {
        port(alloc, names, one, book)?;
    }
    Ok(())
}

/// Reads the generics and the ports of an entity.
pub fn interface(
    alloc: Global,
    names: &Names,
    entity: &Entity,
    book: &mut Book,
) -> Result<(), AllocError>
    requires { IsSoundScope book.old.scope }
    ensures ok { OnOk result (book.new ≡ spec.interface names.now entity.now book.old) }
    ensures sound { OnOk result (IsSoundScope book.new.scope) }
{
    generics(alloc, names, entity.generics.as_slice(), book)?;
    ports(alloc, names, entity.ports.as_slice(), book)
}
