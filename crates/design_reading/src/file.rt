//! From a design file to the flat design of a top.
ghost use Rattle.std.specs.Prelude.{◌≡◌, None};
ghost use Rattle.unit_meaning.specs.Drivers.{flattened, unsolvable};
ghost use Rattle.refusal_note.specs.Notes.{fault_note, refusal_note, unsolvable_note};
ghost use Rattle.design_reading.specs.Reading.{design_of, ruled, counted, solvable, Reads, Notes};

use crate::unread::Unread;
use ams_token::Names;
use ams_tree::DesignFile;
use elab_meaning::Fault;
use elaborate::flatten;
use flat_design::Flat;
use refusal_note::{fault_note, flattening_note, unsolvable_note};
use solvability::{Unsolvable, count};
use std::alloc::Global;
use unit_meaning::Refusal;
use unit_types::{FileFaults, check_file};
use walk_answers::Stop;

/// An instance hasn't as many equations as unknowns.
fn uncounted(alloc: Global, flat: &Flat, unsolvable: &Unsolvable) -> Unread
    ensures { Notes (λ note. note ≡ unsolvable_note flat.now unsolvable.now.instance) result }
{
    match unsolvable_note(alloc, flat, unsolvable.instance) {
        Ok(note) => Unread::Refused(note),
        Err(_) => Unread::Memory,
    }
}

/// The flat design, where each instance has as many equations as unknowns.
fn counted(alloc: Global, flat: Flat) -> Result<Flat, Unread>
    ensures { Reads (λ design. counted flat (unsolvable flat) ≡ design) result }
{
    match count(&flat) {
        Ok(()) => Ok(flat),
        Err(unsolvable) => Err(uncounted(alloc, &flat, &unsolvable)),
    }
}

/// A top has no flat design.
fn unflattened(alloc: Global, names: &Names, refusal: &Refusal) -> Unread
    ensures { Notes (λ note. note ≡ refusal_note names.now refusal.now) result }
{
    match flattening_note(alloc, names, refusal) {
        Ok(note) => Unread::Refused(note),
        Err(_) => Unread::Memory,
    }
}

/// The flat design of a top in a file that keeps the rules of types and natures.
fn flattened(alloc: Global, names: &Names, file: &DesignFile, top: &str) -> Result<Flat, Unread>
    ensures { Reads (λ design. solvable names.now (flattened names.now file.now.units top.now) ≡ design) result }
{
    match flatten(alloc, names, file, top) {
        Ok(flat) => counted(alloc, flat),
        Err(Stop::Refused(refusal)) => Err(unflattened(alloc, names, &refusal)),
        Err(Stop::OutOfMemory) => Err(Unread::Memory),
    }
}

/// A rule of types or natures is broken.
fn broken(alloc: Global, names: &Names, fault: &Fault) -> Unread
    ensures { Notes (λ note. note ≡ fault_note names.now fault.now) result }
{
    match fault_note(alloc, names, fault) {
        Ok(note) => Unread::Refused(note),
        Err(_) => Unread::Memory,
    }
}

/// The flat design of a top in a design file whose first broken rule of natures is this.
fn with_natures(
    alloc: Global,
    names: &Names,
    file: &DesignFile,
    top: &str,
    natures: Option<Fault>,
) -> Result<Flat, Unread>
    ensures { Reads (λ design. ruled names.now None natures (solvable names.now (flattened names.now file.now.units top.now)) ≡ design) result }
{
    match natures {
        Some(fault) => Err(broken(alloc, names, &fault)),
        None => flattened(alloc, names, file, top),
    }
}

/// The flat design of a top in a design file whose first broken rules of types and of natures are these.
fn with_faults(
    alloc: Global,
    names: &Names,
    file: &DesignFile,
    top: &str,
    faults: FileFaults,
) -> Result<Flat, Unread>
    ensures { Reads (λ design. ruled names.now faults.types faults.natures (solvable names.now (flattened names.now file.now.units top.now)) ≡ design) result }
{
    match faults.types {
        Some(fault) => Err(broken(alloc, names, &fault)),
        None => with_natures(alloc, names, file, top, faults.natures),
    }
}

/// The flat design of a top in a design file, or the note of the first refusal.
#[tactic(auto, unfolding(crate::specs::Reading::design_of))]
pub fn design_of_file(
    alloc: Global,
    names: &Names,
    file: &DesignFile,
    top: &str,
) -> Result<Flat, Unread>
    ensures { Reads (λ design. design_of names.now file.now.units top.now ≡ design) result }
{
    match check_file(alloc, names, file) {
        Ok(faults) => with_faults(alloc, names, file, top, faults),
        Err(_) => Err(Unread::Memory),
    }
}
