//! A statement with the numbers that its dots and thresholds get by their first appearance.
ghost use Rattle.std.specs.Prelude.{◌≡◌, OnOk};
ghost use Rattle.unit_meaning.specs.Walk as spec;
ghost use Rattle.walk_steps.specs.Steps.{unnumbered};

use elab_meaning::Notes;
use flat_design::Objects;
use sqlite_items::Items;
use std::alloc::{AllocError, Global};
use std::mem;
use unit_meaning::{Made, Site};

/// The notes with which a statement is read for its numbers. They have the dots and thresholds of the flat design so far,
/// which is without them until `add_statement` puts them back.
pub fn statement_notes(alloc: Global, site: &mut Site) -> Notes
    ensures notes { result ≡ spec.numbering site.old }
    ensures site { site.new ≡ unnumbered site.old }
{
    Notes {
        faults: Items::new(alloc),
        dots: mem::replace(&mut site.objects.dots, Items::new(alloc)),
        thresholds: mem::replace(&mut site.objects.thresholds, Items::new(alloc)),
    }
}

fn add_made(made: Made, objects: &mut Objects) -> Result<(), AllocError>
    ensures { OnOk result (objects.new ≡ spec.with_made made objects.old) }
{
    match made {
        Made::Process(process) => objects.processes.push(process),
        Made::Equation(equation) => objects.equations.push(equation),
        Made::Nothing => Ok(()),
    }
}

/// Adds what a statement makes, with the dots and thresholds behind it.
pub fn add_statement(notes: Notes, made: Made, site: &mut Site) -> Result<(), AllocError>
    ensures { OnOk result (site.new ≡ spec.with_statement (notes, made) site.old) }
{
    let Notes {
        faults,
        dots,
        thresholds,
    } = notes;
    drop(faults);
    site.objects.dots = dots;
    site.objects.thresholds = thresholds;
    add_made(made, &mut site.objects)
}
