//! An instance counted with those so far.
ghost use Rattle.std.specs.Prelude.{◌≡◌, OnOk};
ghost use Rattle.walk_steps.specs.Steps.{counted_with, judging, without_notes};

use ams_tree::{Architecture, Entity};
use elab_meaning::Notes;
use flat_design::Objects;
use instance_counts::{process_count, sum_of, with_instance};
use sqlite_items::Items;
use std::alloc::{AllocError, Global};
use std::mem;
use unit_meaning::{Request, Site};

/// The notes with which the statements of an instance are judged: what its declarations break, and the dots and thresholds
/// that are counted so far, which the flat design is without until `add_counted` puts them back.
pub fn instance_notes(alloc: Global, notes: &mut Notes, site: &mut Site) -> Notes
    ensures notes { result ≡ judging notes.old site.old }
    ensures site { site.new ≡ without_notes site.old }
{
    Notes {
        faults: mem::replace(&mut notes.faults, Items::new(alloc)),
        dots: mem::replace(&mut site.dots, Items::new(alloc)),
        thresholds: mem::replace(&mut site.thresholds, Items::new(alloc)),
    }
}

fn count(
    alloc: Global,
    request: &Request,
    entity: &Entity,
    architecture: &Architecture,
    site: &mut Site,
) -> Result<(), AllocError>
    ensures { OnOk result (site.new ≡ counted_with request.now entity.now architecture.now site.old.objects site.old.used site.old.dots site.old.thresholds site.old) }
{
    let processes = process_count(architecture.statements.as_slice())?;
    site.processes = sum_of(site.processes, processes as usize)?;
    with_instance(alloc, request, entity, architecture, &mut site.objects)
}

/// Counts an instance with those so far: its objects and used quantities, and what its statements note.
pub fn add_counted(
    alloc: Global,
    request: &Request,
    entity: &Entity,
    architecture: &Architecture,
    objects: Objects,
    used: Items<(u32, u32)>,
    notes: Notes,
    site: &mut Site,
) -> Result<(), AllocError>
    ensures { OnOk result (site.new ≡ counted_with request.now entity.now architecture.now objects used notes.dots notes.thresholds site.old) }
{
    let Notes {
        faults,
        dots,
        thresholds,
    } = notes;
    drop(faults);
    site.objects = objects;
    site.used = used;
    site.dots = dots;
    site.thresholds = thresholds;
    count(alloc, request, entity, architecture, site)
}
