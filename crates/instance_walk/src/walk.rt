//! Entering instances, one inside another (IEEE 1076, 14; the order of tests and the limits are own).
ghost use Rattle.std.specs.Prelude.{◌≡◌, ◌++◌, ◌∷◌, [], length, nat_eq, Some, OnOk, IfOk};
ghost use Rattle.std.specs.List.{list_any};
ghost use Rattle.unit_meaning.specs.Units.{start_of};
ghost use Rattle.unit_meaning.specs.Associations.{architecture_in};
ghost use Rattle.unit_meaning.specs.Walk as spec;
ghost use Rattle.unit_index.specs.Index.{known};
ghost use Rattle.expr_types.specs.Known.{IsSoundScope};
ghost use Rattle.instance_matches.specs.Sound.{AreSound};
ghost use Rattle.walk_answers.specs.Answers.{Walks, around_of, setting_with};
ghost use Rattle.instance_walk.specs.Kinds.{around_at, by_kind, instance_walked, number_within, numbered};

use crate::refusals::{no_unit, recursive, too_many};
use ams_token::Names;
use ams_tree::{Architecture, Concurrent, ConcurrentStatement, Entity, Instance, Name};
use flat_design::{Enumeration, INSTANCE_LIMIT};
use instance_body::enter_body;
use name_scope::Scope;
use sqlite_items::Items;
use statement_walk::{number_statement, request_of};
use std::alloc::{AllocError, Global};
use unit_index::Units;
use unit_meaning::{Request, Site};
use walk_answers::{Body, Stop, setting_with};

/// The number of the next instance, where a design may have one more.
fn next_number(site: &Site) -> Option<u32>
    ensures { result ≡ number_within (length site.now.objects.instances) }
{
    let count = site.objects.instances.len();
    if count < INSTANCE_LIMIT {
        Some(count as u32)
    } else {
        None
    }
}

fn is_above(above: &[u32], entity: u32) -> bool
    ensures { result ≡ list_any (nat_eq entity) above.now }
{
    above.iter().any(|other| entity == *other)
}

fn with_entity(alloc: Global, above: &[u32], entity: u32) -> Result<Items<u32>, AllocError>
    ensures { IfOk result (λ all. all ≡ above.now ++ entity ∷ []) }
{
    let mut all = Items::from_slice(alloc, above)?;
    all.push(entity)?;
    Ok(all)
}

fn number_other(
    alloc: Global,
    names: &Names,
    enumerations: &Items<Enumeration>,
    selectors: &Items<u32>,
    path: &[u8],
    number: u32,
    scope: &mut Scope,
    one: &Concurrent,
    site: &mut Site,
) -> Result<(), Stop>
    requires { IsSoundScope scope.old }
    ensures ok { Walks (numbered (around_at (setting_with names.now enumerations.now selectors.now) scope.old path.now number) one.now.label one.now.statement site.old) result site.new }
    ensures scope { OnOk result (scope.new ≡ scope.old) }
{
    let setting = setting_with(names, enumerations, selectors);
    let label = &one.label;
    match number_statement(alloc, &setting, scope, label, &one.statement, site) {
        Ok(()) => Ok(()),
        Err(_) => Err(Stop::OutOfMemory),
    }
}

/// What stands at an inner instance.
fn read_request(
    alloc: Global,
    start: &Scope,
    units: &Units<'_>,
    names: &Names,
    enumerations: &Items<Enumeration>,
    selectors: &Items<u32>,
    path: &[u8],
    number: u32,
    scope: &Scope,
    label: Name,
    instance: &Instance,
    site: &Site,
) -> Result<Request, AllocError>
    requires start { start.now ≡ start_of names.now }
    requires scope { IsSoundScope scope.now }
    ensures value { IfOk result (λ request. request ≡ spec.request_of (setting_with names.now enumerations.now selectors.now) (known units.now) scope.now path.now number label instance.now site.now) }
    ensures sound { IfOk result (λ request. AreSound request.generics) }
{
    let setting = setting_with(names, enumerations, selectors);
    request_of(
        alloc, &setting, start, units, scope, path, number, label, instance, site,
    )
}

#[cycle(walk)]
fn walk_labelled(
    alloc: Global,
    start: &Scope,
    units: &Units<'_>,
    depth: u32,
    above: &[u32],
    names: &Names,
    enumerations: &Items<Enumeration>,
    selectors: &Items<u32>,
    path: &[u8],
    number: u32,
    scope: &Scope,
    label: Name,
    instance: &Instance,
    site: &mut Site,
) -> Result<(), Stop>
    requires start { start.now ≡ start_of names.now }
    requires scope { IsSoundScope scope.now }
    ensures { Walks (spec.enter names.now (known units.now) depth above.now (spec.request_of (setting_with names.now enumerations.now selectors.now) (known units.now) scope.now path.now number label instance.now site.old) site.old) result site.new }
{
    match read_request(
        alloc,
        start,
        units,
        names,
        enumerations,
        selectors,
        path,
        number,
        scope,
        label,
        instance,
        site,
    ) {
        Ok(request) => enter(alloc, names, start, units, depth, above, &request, site),
        Err(_) => Err(Stop::OutOfMemory),
    }
}

#[cycle(walk)]
fn walk_instance(
    alloc: Global,
    start: &Scope,
    units: &Units<'_>,
    depth: u32,
    above: &[u32],
    names: &Names,
    enumerations: &Items<Enumeration>,
    selectors: &Items<u32>,
    path: &[u8],
    number: u32,
    scope: &Scope,
    label: &Option<Name>,
    instance: &Instance,
    site: &mut Site,
) -> Result<(), Stop>
    requires start { start.now ≡ start_of names.now }
    requires scope { IsSoundScope scope.now }
    ensures { Walks (instance_walked (spec.enter names.now (known units.now) depth above.now) (known units.now) (around_at (setting_with names.now enumerations.now selectors.now) scope.now path.now number) label.now instance.now site.old) result site.new }
{
    match label {
        Some(label) => walk_labelled(
            alloc,
            start,
            units,
            depth,
            above,
            names,
            enumerations,
            selectors,
            path,
            number,
            scope,
            *label,
            instance,
            site,
        ),
        None => Ok(()),
    }
}

#[cycle(walk)]
fn walk_statement(
    alloc: Global,
    start: &Scope,
    units: &Units<'_>,
    depth: u32,
    above: &[u32],
    names: &Names,
    enumerations: &Items<Enumeration>,
    selectors: &Items<u32>,
    path: &[u8],
    number: u32,
    scope: &mut Scope,
    one: &Concurrent,
    site: &mut Site,
) -> Result<(), Stop>
    requires start { start.now ≡ start_of names.now }
    requires scope { IsSoundScope scope.old }
    ensures ok { Walks (by_kind (spec.enter names.now (known units.now) depth above.now) (known units.now) (around_at (setting_with names.now enumerations.now selectors.now) scope.old path.now number) one.now.label one.now.statement site.old) result site.new }
    ensures scope { OnOk result (scope.new ≡ scope.old) }
{
    match &one.statement {
        ConcurrentStatement::Instance(instance) => walk_instance(
            alloc,
            start,
            units,
            depth,
            above,
            names,
            enumerations,
            selectors,
            path,
            number,
            scope,
            &one.label,
            instance,
            site,
        ),
        _ => number_other(
            alloc,
            names,
            enumerations,
            selectors,
            path,
            number,
            scope,
            one,
            site,
        ),
    }
}

/// Walks the statements of an instance in their order.
#[cycle(walk)]
fn walk_statements(
    alloc: Global,
    start: &Scope,
    units: &Units<'_>,
    depth: u32,
    above: &[u32],
    names: &Names,
    enumerations: &Items<Enumeration>,
    selectors: &Items<u32>,
    path: &[u8],
    number: u32,
    scope: &mut Scope,
    all: &[Concurrent],
    site: &mut Site,
) -> Result<(), Stop>
    requires start { start.now ≡ start_of names.now }
    requires scope { IsSoundScope scope.old }
    ensures { Walks (spec.statements_walked (spec.enter names.now (known units.now) depth above.now) (known units.now) (around_at (setting_with names.now enumerations.now selectors.now) scope.old path.now number) all.now site.old) result site.new }
{
    for one in all {
        walk_statement(
            alloc,
            start,
            units,
            depth,
            above,
            names,
            enumerations,
            selectors,
            path,
            number,
            scope,
            one,
            site,
        )?;
    }
    Ok(())
}

/// Walks the statements of an instance whose body is entered.
#[cycle(walk)]
fn walk_body(
    alloc: Global,
    names: &Names,
    start: &Scope,
    units: &Units<'_>,
    depth: u32,
    above: &[u32],
    path: &[u8],
    architecture: &Architecture,
    body: Body,
    site: &mut Site,
) -> Result<(), Stop>
    requires start { start.now ≡ start_of names.now }
    requires scope { IsSoundScope body.scope }
    ensures { Walks (spec.statements_walked (spec.enter names.now (known units.now) depth above.now) (known units.now) (around_of names.now path.now body) architecture.now.statements site.old) result site.new }
{
    let Body {
        mut scope,
        enumerations,
        selectors,
        number,
    } = body;
    let all = architecture.statements.as_slice();
    walk_statements(
        alloc,
        start,
        units,
        depth,
        above,
        names,
        &enumerations,
        &selectors,
        path,
        number,
        &mut scope,
        all,
        site,
    )
}

/// Enters a unit that is no part of itself.
#[cycle(walk)]
fn enter_unit(
    alloc: Global,
    names: &Names,
    start: &Scope,
    units: &Units<'_>,
    depth: u32,
    above: &[u32],
    request: &Request,
    entity: &Entity,
    architecture: &Architecture,
    number: u32,
    site: &mut Site,
) -> Result<(), Stop>
    requires start { start.now ≡ start_of names.now }
    requires generics { AreSound request.now.generics }
    requires number { number ≡ length site.old.objects.instances }
    ensures { Walks (spec.interface_entered (spec.enter names.now (known units.now) depth above.now) names.now (known units.now) request.now entity.now architecture.now (spec.entry_of_instance names.now request.now entity.now site.old) site.old) result site.new }
{
    match enter_body(
        alloc,
        names,
        start,
        units,
        request,
        entity,
        architecture,
        number,
        site,
    ) {
        Ok(body) => walk_body(
            alloc,
            names,
            start,
            units,
            depth,
            above,
            request.path.as_slice(),
            architecture,
            body,
            site,
        ),
        Err(stop) => Err(stop),
    }
}

/// Enters an architecture, unless its entity stands round it.
#[cycle(walk)]
fn enter_architecture(
    alloc: Global,
    names: &Names,
    start: &Scope,
    units: &Units<'_>,
    depth: u32,
    above: &[u32],
    request: &Request,
    entity: &Entity,
    architecture: &Architecture,
    number: u32,
    site: &mut Site,
) -> Result<(), Stop>
    requires start { start.now ≡ start_of names.now }
    requires generics { AreSound request.now.generics }
    requires number { number ≡ length site.old.objects.instances }
    ensures { Walks (spec.unit_entered (spec.enter names.now (known units.now) depth (above.now ++ request.now.entity ∷ [])) names.now (known units.now) above.now request.now (Some entity.now) (Some architecture.now) site.old) result site.new }
{
    if is_above(above, request.entity) {
        return recursive(alloc, request);
    }
    match with_entity(alloc, above, request.entity) {
        Ok(above) => enter_unit(
            alloc,
            names,
            start,
            units,
            depth,
            above.as_slice(),
            request,
            entity,
            architecture,
            number,
            site,
        ),
        Err(_) => Err(Stop::OutOfMemory),
    }
}

#[cycle(walk)]
fn enter_entity(
    alloc: Global,
    names: &Names,
    start: &Scope,
    units: &Units<'_>,
    depth: u32,
    above: &[u32],
    request: &Request,
    entity: &Entity,
    number: u32,
    site: &mut Site,
) -> Result<(), Stop>
    requires start { start.now ≡ start_of names.now }
    requires generics { AreSound request.now.generics }
    requires number { number ≡ length site.old.objects.instances }
    ensures { Walks (spec.unit_entered (spec.enter names.now (known units.now) depth (above.now ++ request.now.entity ∷ [])) names.now (known units.now) above.now request.now (Some entity.now) (architecture_in (known units.now) request.now.entity request.now.architecture) site.old) result site.new }
{
    match units.architecture(request.entity, request.architecture) {
        Some(architecture) => enter_architecture(
            alloc,
            names,
            start,
            units,
            depth,
            above,
            request,
            entity,
            architecture,
            number,
            site,
        ),
        None => no_unit(alloc, names, request),
    }
}

#[cycle(walk)]
fn enter_next(
    alloc: Global,
    names: &Names,
    start: &Scope,
    units: &Units<'_>,
    depth: u32,
    above: &[u32],
    request: &Request,
    site: &mut Site,
) -> Result<(), Stop>
    requires start { start.now ≡ start_of names.now }
    requires generics { AreSound request.now.generics }
    ensures { Walks (spec.entered (spec.enter names.now (known units.now) depth (above.now ++ request.now.entity ∷ [])) names.now (known units.now) above.now request.now site.old) result site.new }
{
    let Some(number) = next_number(site) else {
        return too_many();
    };
    match units.entity(request.entity) {
        Some(entity) => enter_entity(
            alloc, names, start, units, depth, above, request, entity, number, site,
        ),
        None => no_unit(alloc, names, request),
    }
}

/// Enters the instance that stands at a request, with at most `depth` instances inside one another; `above` are the entities
/// round it. Its statements are read twice: once to judge them and to count, and once for their numbers, since the instances
/// inside stand between. After an error nothing is said of the flat design.
#[cycle(walk)]
pub fn enter(
    alloc: Global,
    names: &Names,
    start: &Scope,
    units: &Units<'_>,
    depth: u32,
    above: &[u32],
    request: &Request,
    site: &mut Site,
) -> Result<(), Stop>
    requires start { start.now ≡ start_of names.now }
    requires generics { AreSound request.now.generics }
    ensures { Walks (spec.enter names.now (known units.now) depth above.now request.now site.old) result site.new }
{
    if depth == 0 {
        return too_many();
    }
    let deeper = depth - 1;
    enter_next(alloc, names, start, units, deeper, above, request, site)
}
