//! The walk from the top of a design.
ghost use Rattle.std.specs.Prelude.{◌≡◌, [], Err, position};
ghost use Rattle.std.specs.Str.{bytes_eq};
ghost use Rattle.flat_design.specs.Limits.{instance_limit};
ghost use Rattle.unit_meaning.specs.declared.site.Refusal.TheVariants.{NoTop};
ghost use Rattle.unit_meaning.specs.Units.{start_of};
ghost use Rattle.unit_meaning.specs.Walk as spec;
ghost use Rattle.unit_index.specs.Index.{known};
ghost use Rattle.instance_matches.specs.Sound.{AreSound};
ghost use Rattle.instance_walk.specs.Answers.{Answers};

use crate::walk::enter;
use ams_token::Names;
use flat_design::INSTANCE_LIMIT;
use name_scope::Scope;
use sqlite_items::Items;
use std::alloc::Global;
use unit_index::Units;
use unit_meaning::{Refusal, Request, Site};
use walk_answers::Stop;
use walk_steps::{first_site, top_request};

fn no_top(alloc: Global, top: &str) -> Result<Site, Stop>
    ensures { Answers (Err (NoTop top.now)) result }
{
    match Items::from_slice(alloc, top.as_bytes()) {
        Ok(name) => Err(Stop::Refused(Refusal::NoTop(name))),
        Err(_) => Err(Stop::OutOfMemory),
    }
}

fn enter_first(
    alloc: Global,
    names: &Names,
    start: &Scope,
    units: &Units<'_>,
    request: &Request,
    site: Site,
) -> Result<Site, Stop>
    requires start { start.now ≡ start_of names.now }
    requires generics { AreSound request.now.generics }
    ensures { Answers (spec.enter names.now (known units.now) instance_limit [] request.now site) result }
{
    let mut site = site;
    let depth = INSTANCE_LIMIT as u32;
    match enter(alloc, names, start, units, depth, &[], request, &mut site) {
        Ok(()) => Ok(site),
        Err(stop) => {
            drop(site);
            Err(stop)
        }
    }
}

fn enter_top(
    alloc: Global,
    names: &Names,
    start: &Scope,
    units: &Units<'_>,
    request: &Request,
) -> Result<Site, Stop>
    requires start { start.now ≡ start_of names.now }
    requires generics { AreSound request.now.generics }
    ensures { Answers (spec.enter names.now (known units.now) instance_limit [] request.now spec.first_site) result }
{
    match first_site(alloc) {
        Ok(site) => enter_first(alloc, names, start, units, request, site),
        Err(_) => Err(Stop::OutOfMemory),
    }
}

fn walk_entity(
    alloc: Global,
    names: &Names,
    start: &Scope,
    units: &Units<'_>,
    top: &str,
    entity: u32,
) -> Result<Site, Stop>
    requires start { start.now ≡ start_of names.now }
    ensures { Answers (spec.enter names.now (known units.now) instance_limit [] (spec.top_request top.now entity) spec.first_site) result }
{
    match top_request(alloc, top.as_bytes(), entity) {
        Ok(request) => enter_top(alloc, names, start, units, &request),
        Err(_) => Err(Stop::OutOfMemory),
    }
}

/// The flat design of a top, before its drivers and its frame are asked for. `start` is the scope round each unit, and
/// `units` are those of the file.
pub fn walked(
    alloc: Global,
    names: &Names,
    start: &Scope,
    units: &Units<'_>,
    top: &str,
) -> Result<Site, Stop>
    requires start { start.now ≡ start_of names.now }
    ensures { Answers (spec.walked names.now (known units.now) top.now (position (bytes_eq top.now) names.now)) result }
{
    match names.find(top) {
        Some(entity) => walk_entity(alloc, names, start, units, top, entity),
        None => no_top(alloc, top),
    }
}
