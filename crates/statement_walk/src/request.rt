//! Instances that stand in another one (IEEE 1076, 11.7).
ghost use Rattle.std.specs.Prelude.{◌≡◌, IfOk};
ghost use Rattle.unit_meaning.specs.Units.{start_of};
ghost use Rattle.unit_meaning.specs.Walk as spec;
ghost use Rattle.unit_index.specs.Index.{known};
ghost use Rattle.expr_types.specs.Known.{IsSoundScope};
ghost use Rattle.instance_matches.specs.Sound.{AreSound};
ghost use Rattle.statement_walk.specs.Requests.{maps_at, request_with};

use ams_tree::{Instance, Name};
use association_types::{InstanceMaps, instance_maps};
use elab_meaning::Notes;
use name_scope::Scope;
use sqlite_items::Items;
use statement_parts::Setting;
use std::alloc::{AllocError, Global};
use unit_index::Units;
use unit_meaning::{Request, Site};
use walk_steps::inner_path;

/// The notes with which associations are read: a copy of the dots and thresholds so far, since what they note is thrown
/// away.
fn request_notes(alloc: Global, site: &Site) -> Result<Notes, AllocError>
    ensures { IfOk result (λ notes. notes ≡ spec.numbering site.now) }
{
    let dots = Items::from_slice(alloc, site.objects.dots.as_slice())?;
    let thresholds = Items::from_slice(alloc, site.objects.thresholds.as_slice())?;
    Ok(Notes {
        faults: Items::new(alloc),
        dots,
        thresholds,
    })
}

fn name_number(name: &Option<Name>) -> Option<u32>
    ensures { result ≡ spec.name_number name.now }
{
    match name {
        Some(name) => Some(name.number),
        None => None,
    }
}

fn request_at(path: Items<u8>, outer: u32, instance: &Instance, maps: InstanceMaps) -> Request
    requires { AreSound maps.generics }
    ensures value { result ≡ request_with path outer instance.now (maps.generics, maps.ports) }
    ensures sound { AreSound result.generics }
{
    let InstanceMaps { generics, ports } = maps;
    Request {
        path,
        entity: instance.entity.number,
        architecture: name_number(&instance.architecture),
        generics,
        ports,
        outer,
    }
}

fn maps_of(
    alloc: Global,
    setting: &Setting<'_>,
    start: &Scope,
    units: &Units<'_>,
    scope: &Scope,
    instance: &Instance,
    site: &Site,
) -> Result<InstanceMaps, AllocError>
    requires start { start.now ≡ start_of setting.now.texts }
    requires scope { IsSoundScope scope.now }
    ensures value { IfOk result (λ maps. (maps.generics, maps.ports) ≡ maps_at setting.now (known units.now) scope.now instance.now site.now) }
    ensures sound { IfOk result (λ maps. AreSound maps.generics) }
{
    let mut notes = request_notes(alloc, site)?;
    let maps = instance_maps(
        alloc,
        setting.names(),
        start,
        units,
        scope,
        instance,
        &mut notes,
    );
    drop(notes);
    maps
}

/// What stands at an instance with a label: `path` and `outer` are the path and the number of the instance round it.
pub fn request_of(
    alloc: Global,
    setting: &Setting<'_>,
    start: &Scope,
    units: &Units<'_>,
    scope: &Scope,
    path: &[u8],
    outer: u32,
    label: Name,
    instance: &Instance,
    site: &Site,
) -> Result<Request, AllocError>
    requires start { start.now ≡ start_of setting.now.texts }
    requires scope { IsSoundScope scope.now }
    ensures value { IfOk result (λ request. request ≡ spec.request_of setting.now (known units.now) scope.now path.now outer label instance.now site.now) }
    ensures sound { IfOk result (λ request. AreSound request.generics) }
{
    let path = inner_path(alloc, setting.names(), path, label)?;
    match maps_of(alloc, setting, start, units, scope, instance, site) {
        Ok(maps) => Ok(request_at(path, outer, instance, maps)),
        Err(error) => {
            drop(path);
            Err(error)
        }
    }
}
