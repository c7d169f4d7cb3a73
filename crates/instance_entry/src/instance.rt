//! Entering an instance (IEEE 1076, 14.3 and 14.4).
ghost use Rattle.std.specs.Prelude.{◌≡◌, IfOk, OnOk, IfSome};
ghost use Rattle.unit_meaning.specs.Units.{start_of};
ghost use Rattle.expr_types.specs.Known.{IsSoundScope};
ghost use Rattle.instance_matches.specs.Sound.{AreSound, IsSoundGiven};
ghost use Rattle.generic_entry.specs.Entering.{Enters};
ghost use Rattle.port_entry.specs.Entries.{entry_of, some_entry};
ghost use Rattle.instance_entry.specs.Instances.{first_entry, parts_entered, ports_matched, interface_entered, entry_with};

use ams_token::Names;
use ams_tree::Entity;
use elab_meaning::Book;
use flat_design::Objects;
use generic_entry::enter_generics;
use instance_matches::{Matches, generic_numbers, matched, port_numbers};
use name_scope::Scope;
use port_entry::{Entry, enter_ports};
use sqlite_items::Items;
use start_scope::{no_notes, start_of};
use std::alloc::{AllocError, Global};
use unit_meaning::Request;

/// How many natures there are round each unit.
const FIRST_NATURES: u32 = 1;

fn enter_parts(
    alloc: Global,
    names: &Names,
    outer: u32,
    entity: &Entity,
    generics: &Matches<'_>,
    ports: &Matches<'_>,
    entry: &mut Entry,
) -> Result<bool, AllocError>
    requires scope { IsSoundScope entry.old.book.scope }
    requires generics { IsSoundGiven generics.now }
    ensures entered { Enters (parts_entered names.now outer entity.now generics.now ports.now (entry_of entry.old)) result (entry_of entry.new) }
    ensures sound { OnOk result (IsSoundScope entry.new.book.scope) }
{
    let written = entity.generics.as_slice();
    if !enter_generics(alloc, names, generics, written, &mut entry.book)? {
        return Ok(false);
    }
    enter_ports(alloc, names, outer, ports, entity.ports.as_slice(), entry)
}

fn match_ports(
    alloc: Global,
    names: &Names,
    request: &Request,
    entity: &Entity,
    generics: &Matches<'_>,
    entry: &mut Entry,
) -> Result<bool, AllocError>
    requires scope { IsSoundScope entry.old.book.scope }
    requires generics { IsSoundGiven generics.now }
    ensures entered { Enters (ports_matched names.now request.now entity.now (entry_of entry.old) generics.now) result (entry_of entry.new) }
    ensures sound { OnOk result (IsSoundScope entry.new.book.scope) }
{
    let formals = port_numbers(alloc, entity.ports.as_slice())?;
    match matched(alloc, &formals, request.ports.as_slice())? {
        Some(ports) => enter_parts(alloc, names, request.outer, entity, generics, &ports, entry),
        None => Ok(false),
    }
}

/// Enters the generics and the ports of an entity as a request gives them.
fn enter_interface(
    alloc: Global,
    names: &Names,
    request: &Request,
    entity: &Entity,
    entry: &mut Entry,
) -> Result<bool, AllocError>
    requires scope { IsSoundScope entry.old.book.scope }
    requires generics { AreSound request.now.generics }
    ensures entered { Enters (interface_entered names.now request.now entity.now (entry_of entry.old)) result (entry_of entry.new) }
    ensures sound { OnOk result (IsSoundScope entry.new.book.scope) }
{
    let formals = generic_numbers(alloc, entity.generics.as_slice())?;
    match matched(alloc, &formals, request.generics.as_slice())? {
        Some(generics) => match_ports(alloc, names, request, entity, &generics, entry),
        None => Ok(false),
    }
}

fn around(alloc: Global, names: &Names, request: &Request) -> Result<(Scope, Items<u8>), AllocError>
    ensures value { IfOk result (λ found. (found.0 ≡ start_of names.now) × (found.1 ≡ request.now.path)) }
    ensures sound { IfOk result (λ found. IsSoundScope found.0) }
{
    let scope = start_of(alloc, names)?;
    let path = Items::from_slice(alloc, request.path.as_slice())?;
    Ok((scope, path))
}

fn entry_around(
    alloc: Global,
    scope: Scope,
    path: Items<u8>,
    objects: Objects,
    used: Items<(u32, u32)>,
) -> Entry
    requires { IsSoundScope scope }
    ensures value { entry_of result ≡ first_entry scope path objects used }
    ensures sound { IsSoundScope result.book.scope }
{
    Entry {
        book: Book {
            scope,
            notes: no_notes(alloc),
            objects,
            path,
            natures: FIRST_NATURES,
        },
        used,
    }
}

/// An entry whose interface is entered.
fn entered(
    alloc: Global,
    names: &Names,
    request: &Request,
    entity: &Entity,
    entry: Entry,
) -> Result<Option<Entry>, AllocError>
    requires scope { IsSoundScope entry.book.scope }
    requires generics { AreSound request.now.generics }
    ensures value { IfOk result (λ found. some_entry found ≡ interface_entered names.now request.now entity.now (entry_of entry)) }
    ensures sound { IfOk result (λ found. IfSome found (λ e. IsSoundScope e.book.scope)) }
{
    let mut entry = entry;
    match enter_interface(alloc, names, request, entity, &mut entry) {
        Ok(true) => Ok(Some(entry)),
        Ok(false) => {
            drop(entry);
            Ok(None)
        }
        Err(error) => {
            drop(entry);
            Err(error)
        }
    }
}

/// Reads the interface of the instance that stands at a request, behind the flat design so far: its objects, and the
/// quantities that are actuals of ports of mode out. None where the associations don't fit.
pub fn entry_of_instance(
    alloc: Global,
    names: &Names,
    request: &Request,
    entity: &Entity,
    objects: Objects,
    used: Items<(u32, u32)>,
) -> Result<Option<Entry>, AllocError>
    requires { AreSound request.now.generics }
    ensures value { IfOk result (λ found. some_entry found ≡ entry_with names.now request.now entity.now objects used) }
    ensures sound { IfOk result (λ found. IfSome found (λ e. IsSoundScope e.book.scope)) }
{
    match around(alloc, names, request) {
        Ok((scope, path)) => {
            let entry = entry_around(alloc, scope, path, objects, used);
            entered(alloc, names, request, entity, entry)
        }
        Err(error) => {
            drop(objects);
            drop(used);
            Err(error)
        }
    }
}
