//! The body of an instance (IEEE 1076, 14.4 and 14.5).
ghost use Rattle.std.specs.Prelude.{◌≡◌, ℕ, List, Err, OnOk, IfOk};
ghost use Rattle.unit_meaning.specs.Units as units_spec;
ghost use Rattle.unit_meaning.specs.Walk as spec;
ghost use Rattle.unit_index.specs.Index.{known};
ghost use Rattle.unit_meaning.specs.declared.site.Refusal.TheVariants.{PortMismatch};
ghost use Rattle.unit_meaning.specs.declared.site.Site.{Site as Seen};
ghost use Rattle.expr_types.specs.Known.{IsSoundScope};
ghost use Rattle.instance_matches.specs.Sound.{AreSound};
ghost use Rattle.port_entry.specs.Entries.{entry_of};
ghost use Rattle.walk_answers.specs.Answers.{Opens, around_of, setting_with};
ghost use Rattle.instance_body.specs.Bodies.{counted_around, judged, opened_book, opened_entry, opened_interface};

use crate::counts::count;
use crate::entries::take_entry;
use ams_token::Names;
use ams_tree::{Architecture, Entity};
use elab_meaning::{Book, Notes};
use flat_design::Objects;
use name_scope::Scope;
use port_entry::Entry;
use sqlite_items::Items;
use std::alloc::{AllocError, Global};
use unit_bodies::judge_statements;
use unit_index::Units;
use unit_meaning::{Refusal, Request, Site};
use unit_parts::opened;
use walk_answers::{Body, Stop, body_of, setting_with};
use walk_steps::instance_notes;

/// Reads the statements of an instance for what they note.
fn judge(
    alloc: Global,
    names: &Names,
    start: &Scope,
    units: &Units<'_>,
    architecture: &Architecture,
    body: &mut Body,
    notes: &mut Notes,
) -> Result<(), AllocError>
    requires start { start.now ≡ units_spec.start_of names.now }
    requires scope { IsSoundScope body.old.scope }
    ensures notes { OnOk result (notes.new ≡ judged (setting_with names.now body.old.enumerations body.old.selectors) start.now (known units.now) architecture.now body.old.scope notes.old) }
    ensures body { OnOk result (body.new ≡ body.old) }
{
    let setting = setting_with(names, &body.enumerations, &body.selectors);
    let all = architecture.statements.as_slice();
    judge_statements(alloc, &setting, start, units, &mut body.scope, all, notes)
}

/// The instance with what its statements note.
fn judged_body(
    alloc: Global,
    names: &Names,
    start: &Scope,
    units: &Units<'_>,
    architecture: &Architecture,
    body: Body,
    notes: &mut Notes,
) -> Result<Body, AllocError>
    requires start { start.now ≡ units_spec.start_of names.now }
    requires scope { IsSoundScope body.scope }
    ensures notes { OnOk result (notes.new ≡ judged (setting_with names.now body.enumerations body.selectors) start.now (known units.now) architecture.now body.scope notes.old) }
    ensures body { IfOk result (λ same. same ≡ body) }
{
    let mut body = body;
    match judge(alloc, names, start, units, architecture, &mut body, notes) {
        Ok(()) => Ok(body),
        Err(error) => {
            drop(body);
            Err(error)
        }
    }
}

/// The instance, where it breaks no rule and no limit is passed.
fn counted_body(
    alloc: Global,
    request: &Request,
    entity: &Entity,
    architecture: &Architecture,
    body: Body,
    objects: Objects,
    used: Items<(u32, u32)>,
    notes: Notes,
    site: &mut Site,
) -> Result<Body, Stop>
    requires { IsSoundScope body.scope }
    ensures opened { (texts : List (List ℕ)) → Opens texts request.now.path (counted_around request.now entity.now architecture.now objects used notes site.old (around_of texts request.now.path body)) result site.new }
    ensures sound { IfOk result (λ it. IsSoundScope it.scope) }
{
    match count(
        alloc,
        request,
        entity,
        architecture,
        objects,
        used,
        notes,
        site,
    ) {
        Ok(()) => Ok(body),
        Err(stop) => {
            drop(body);
            Err(stop)
        }
    }
}

/// Reads the statements of an instance, and counts it.
fn read_body(
    alloc: Global,
    names: &Names,
    start: &Scope,
    units: &Units<'_>,
    request: &Request,
    entity: &Entity,
    architecture: &Architecture,
    body: Body,
    objects: Objects,
    used: Items<(u32, u32)>,
    notes: Notes,
    site: &mut Site,
) -> Result<Body, Stop>
    requires start { start.now ≡ units_spec.start_of names.now }
    requires scope { IsSoundScope body.scope }
    ensures opened { Opens names.now request.now.path (counted_around request.now entity.now architecture.now objects used (judged (setting_with names.now body.enumerations body.selectors) start.now (known units.now) architecture.now body.scope notes) site.old (around_of names.now request.now.path body)) result site.new }
    ensures sound { IfOk result (λ it. IsSoundScope it.scope) }
{
    let mut notes = notes;
    match judged_body(alloc, names, start, units, architecture, body, &mut notes) {
        Ok(body) => counted_body(
            alloc,
            request,
            entity,
            architecture,
            body,
            objects,
            used,
            notes,
            site,
        ),
        Err(_) => {
            drop(objects);
            drop(used);
            drop(notes);
            Err(Stop::OutOfMemory)
        }
    }
}

fn open_book(
    alloc: Global,
    names: &Names,
    start: &Scope,
    units: &Units<'_>,
    request: &Request,
    entity: &Entity,
    architecture: &Architecture,
    number: u32,
    book: Book,
    used: Items<(u32, u32)>,
    site: &mut Site,
) -> Result<Body, Stop>
    requires start { start.now ≡ units_spec.start_of names.now }
    requires scope { IsSoundScope book.scope }
    ensures opened { Opens names.now request.now.path (opened_book names.now start.now (known units.now) request.now entity.now architecture.now book used number site.old) result site.new }
    ensures sound { IfOk result (λ it. IsSoundScope it.scope) }
{
    let Book {
        scope,
        mut notes,
        objects,
        path,
        natures: _,
    } = book;
    drop(path);
    let judging = instance_notes(alloc, &mut notes, site);
    drop(notes);
    match body_of(
        alloc,
        architecture,
        scope,
        objects.enumerations.as_slice(),
        number,
    ) {
        Ok(body) => read_body(
            alloc,
            names,
            start,
            units,
            request,
            entity,
            architecture,
            body,
            objects,
            used,
            judging,
            site,
        ),
        Err(_) => {
            drop(objects);
            drop(used);
            drop(judging);
            Err(Stop::OutOfMemory)
        }
    }
}

/// Reads the declarations and the statements of an instance whose interface is read.
fn open_entry(
    alloc: Global,
    names: &Names,
    start: &Scope,
    units: &Units<'_>,
    request: &Request,
    entity: &Entity,
    architecture: &Architecture,
    number: u32,
    entry: Entry,
    site: &mut Site,
) -> Result<Body, Stop>
    requires start { start.now ≡ units_spec.start_of names.now }
    requires scope { IsSoundScope entry.book.scope }
    ensures opened { Opens names.now request.now.path (opened_entry names.now start.now (known units.now) request.now entity.now architecture.now (entry_of entry) number site.old) result site.new }
    ensures sound { IfOk result (λ it. IsSoundScope it.scope) }
{
    let Entry { mut book, used } = entry;
    match opened(alloc, names, architecture, &mut book) {
        Ok(()) => open_book(
            alloc,
            names,
            start,
            units,
            request,
            entity,
            architecture,
            number,
            book,
            used,
            site,
        ),
        Err(_) => {
            drop(book);
            drop(used);
            Err(Stop::OutOfMemory)
        }
    }
}

fn mismatch(alloc: Global, request: &Request) -> Result<Body, Stop>
    ensures opened { (texts : List (List ℕ)) (site : Seen) → Opens texts request.now.path (Err (PortMismatch request.now.path)) result site }
    ensures sound { IfOk result (λ it. IsSoundScope it.scope) }
{
    match Items::from_slice(alloc, request.path.as_slice()) {
        Ok(path) => Err(Stop::Refused(Refusal::PortMismatch(path))),
        Err(_) => Err(Stop::OutOfMemory),
    }
}

/// Enters the body of the instance that stands at a request: reads its interface, its declarations and its statements behind
/// the flat design so far, and counts it. Its associations don't fit, or it breaks a rule, or a limit is passed, in this
/// order. After an error nothing is said of the flat design.
pub fn enter_body(
    alloc: Global,
    names: &Names,
    start: &Scope,
    units: &Units<'_>,
    request: &Request,
    entity: &Entity,
    architecture: &Architecture,
    number: u32,
    site: &mut Site,
) -> Result<Body, Stop>
    requires start { start.now ≡ units_spec.start_of names.now }
    requires generics { AreSound request.now.generics }
    ensures opened { Opens names.now request.now.path (opened_interface names.now start.now (known units.now) request.now entity.now architecture.now (spec.entry_of_instance names.now request.now entity.now site.old) number site.old) result site.new }
    ensures sound { IfOk result (λ it. IsSoundScope it.scope) }
{
    match take_entry(alloc, names, request, entity, site) {
        Ok(Some(entry)) => open_entry(
            alloc,
            names,
            start,
            units,
            request,
            entity,
            architecture,
            number,
            entry,
            site,
        ),
        Ok(None) => mismatch(alloc, request),
        Err(_) => Err(Stop::OutOfMemory),
    }
}
