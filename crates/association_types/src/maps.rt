//! The maps of an instance (IEEE 1076, 11.7).
ghost use Rattle.std.specs.Prelude.{◌≡◌, Some, None, IfOk};
ghost use Rattle.unit_meaning.specs.Associations as spec;
ghost use Rattle.unit_meaning.specs.Units.{start_of};
ghost use Rattle.unit_index.specs.Index.{known};
ghost use Rattle.association_types.specs.Maps.{FindsMaps, maps_of, maps_with};
ghost use Rattle.expr_types.specs.Known.{IsSoundScope};
ghost use Rattle.instance_matches.specs.Sound.{AreSound};

use crate::associations::{generic_associations, port_associations};
use ams_token::Names;
use ams_tree::{Association, Entity, Instance};
use elab_meaning::Notes;
use formal_lists::{GenericFormals, PortFormals, generic_formals, port_formals};
use held_value::Held;
use name_scope::Scope;
use sqlite_items::Items;
use std::alloc::{AllocError, Global};
use unit_index::Units;
use unit_meaning::Assigned;

/// The associations of an instance: those of its generics, and those of its ports.
#[derive(Drop)]
pub struct InstanceMaps {
    pub generics: Items<Assigned>,
    pub ports: Items<Assigned>,
}

fn list_or(list: &Option<Items<Association>>) -> &[Association]
    ensures { result.now ≡ spec.list_or list.now }
{
    match list {
        Some(list) => list.as_slice(),
        None => &[],
    }
}

/// Reads the associations of an instance by the formals of its entity.
fn read_maps(
    alloc: Global,
    names: &Names,
    start: &Scope,
    scope: &Scope,
    generics: &GenericFormals,
    ports: &PortFormals,
    instance: &Instance,
    notes: &mut Notes,
) -> Result<InstanceMaps, AllocError>
    requires { IsSoundScope scope.now }
    ensures found { FindsMaps (maps_with names.now start.now scope.now generics.now ports.now instance.now notes.old) result notes.new }
    ensures sound { IfOk result (λ maps. AreSound maps.generics) }
{
    let all = list_or(&instance.generics);
    let first = Held::new(generic_associations(alloc, names, scope, generics, all, notes)?);
    let all = list_or(&instance.ports);
    let second = port_associations(alloc, names, start, scope, ports, all, notes)?;
    Ok(InstanceMaps {
        generics: first.into_inner(),
        ports: second,
    })
}

fn maps_of_entity(
    alloc: Global,
    names: &Names,
    start: &Scope,
    scope: &Scope,
    entity: &Entity,
    instance: &Instance,
    notes: &mut Notes,
) -> Result<InstanceMaps, AllocError>
    requires { IsSoundScope scope.now }
    ensures found { FindsMaps (maps_of names.now (start_of names.now) start.now scope.now (Some entity.now) instance.now notes.old) result notes.new }
    ensures sound { IfOk result (λ maps. AreSound maps.generics) }
{
    let generics = generic_formals(alloc, names, entity)?;
    let ports = port_formals(alloc, entity)?;
    read_maps(
        alloc, names, start, scope, &generics, &ports, instance, notes,
    )
}

/// Of an entity that isn't there no formal is known.
fn maps_of_none(
    alloc: Global,
    names: &Names,
    start: &Scope,
    scope: &Scope,
    instance: &Instance,
    notes: &mut Notes,
) -> Result<InstanceMaps, AllocError>
    requires { IsSoundScope scope.now }
    ensures found { FindsMaps (maps_of names.now (start_of names.now) start.now scope.now None instance.now notes.old) result notes.new }
    ensures sound { IfOk result (λ maps. AreSound maps.generics) }
{
    let generics = GenericFormals::new(alloc, Items::new(alloc))?;
    let ports = PortFormals::new(alloc, Items::new(alloc))?;
    read_maps(
        alloc, names, start, scope, &generics, &ports, instance, notes,
    )
}

/// Reads the associations of an instance. `start` is the scope round each unit, and `units` are those of the file.
pub fn instance_maps(
    alloc: Global,
    names: &Names,
    start: &Scope,
    units: &Units<'_>,
    scope: &Scope,
    instance: &Instance,
    notes: &mut Notes,
) -> Result<InstanceMaps, AllocError>
    requires start { start.now ≡ start_of names.now }
    requires scope { IsSoundScope scope.now }
    ensures found { FindsMaps (spec.instance_maps names.now start.now (known units.now) scope.now instance.now notes.old) result notes.new }
    ensures sound { IfOk result (λ maps. AreSound maps.generics) }
{
    match units.entity(instance.entity.number) {
        Some(entity) => maps_of_entity(alloc, names, start, scope, entity, instance, notes),
        None => maps_of_none(alloc, names, start, scope, instance, notes),
    }
}
