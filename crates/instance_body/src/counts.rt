//! An instance whose statements are read, counted with those so far.
ghost use Rattle.unit_meaning.specs.Walk as spec;
ghost use Rattle.walk_steps.specs.Steps.{counted_with};
ghost use Rattle.walk_answers.specs.Answers.{Walks};
ghost use Rattle.instance_body.specs.Bodies.{counted_parts};

use ams_tree::{Architecture, Entity};
use elab_meaning::Notes;
use fault_order::{Stage, first_fault};
use flat_design::Objects;
use instance_counts::limit_passed;
use sqlite_items::Items;
use std::alloc::Global;
use unit_meaning::{Refusal, Request, Site};
use walk_answers::Stop;
use walk_steps::add_counted;

fn check_limits(site: &Site) -> Result<(), Stop>
    ensures { Walks (spec.within_limits site.now) result site.now }
{
    match limit_passed(site) {
        Some(limit) => Err(Stop::Refused(Refusal::TooMany(limit))),
        None => Ok(()),
    }
}

/// An instance that breaks no rule.
fn count_unbroken(
    alloc: Global,
    request: &Request,
    entity: &Entity,
    architecture: &Architecture,
    objects: Objects,
    used: Items<(u32, u32)>,
    notes: Notes,
    site: &mut Site,
) -> Result<(), Stop>
    ensures { Walks (spec.within_limits (counted_with request.now entity.now architecture.now objects used notes.dots notes.thresholds site.old)) result site.new }
{
    match add_counted(
        alloc,
        request,
        entity,
        architecture,
        objects,
        used,
        notes,
        site,
    ) {
        Ok(()) => check_limits(site),
        Err(_) => Err(Stop::OutOfMemory),
    }
}

/// Counts an instance with those so far, unless it breaks a rule or a limit is passed.
pub fn count(
    alloc: Global,
    request: &Request,
    entity: &Entity,
    architecture: &Architecture,
    objects: Objects,
    used: Items<(u32, u32)>,
    notes: Notes,
    site: &mut Site,
) -> Result<(), Stop>
    ensures { Walks (counted_parts request.now entity.now architecture.now objects used notes site.old) result site.new }
{
    match first_fault(Stage::Instances, notes.faults.as_slice()) {
        Some(fault) => {
            drop(objects);
            drop(used);
            drop(notes);
            Err(Stop::Refused(Refusal::Broken(fault)))
        }
        None => count_unbroken(
            alloc,
            request,
            entity,
            architecture,
            objects,
            used,
            notes,
            site,
        ),
    }
}
