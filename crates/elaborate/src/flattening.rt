//! Flattening a design (IEEE 1076, 14; the limits are own).
ghost use Rattle.std.specs.Prelude.{◌≡◌};
ghost use Rattle.unit_meaning.specs.Drivers as spec;
ghost use Rattle.unit_meaning.specs.Units.{start_of};
ghost use Rattle.unit_index.specs.Index.{known};
ghost use Rattle.instance_walk.specs.Answers.{Answers};
ghost use Rattle.elaborate.specs.Stages.{flat_behind};

use ams_token::Names;
use ams_tree::{DesignFile, DesignUnit};
use driver_check::flat_of;
use flat_design::Flat;
use instance_walk::walked;
use name_scope::Scope;
use start_scope::start_of;
use std::alloc::Global;
use unit_index::Units;
use unit_meaning::{Refusal, Site};
use walk_answers::Stop;

fn answered(answer: Result<Flat, Refusal>) -> Result<Flat, Stop>
    ensures { Answers answer result }
{
    match answer {
        Ok(flat) => Ok(flat),
        Err(refusal) => Err(Stop::Refused(refusal)),
    }
}

/// The flat design that the walk leaves, unless two processes drive a signal or the frame has too many values.
fn flat_of_site(alloc: Global, site: Site) -> Result<Flat, Stop>
    ensures { Answers (flat_behind site) result }
{
    let Site {
        objects,
        dots,
        thresholds,
        processes: _,
        used,
    } = site;
    drop(dots);
    drop(thresholds);
    drop(used);
    match flat_of(alloc, objects) {
        Ok(answer) => answered(answer),
        Err(_) => Err(Stop::OutOfMemory),
    }
}

fn flatten_units(
    alloc: Global,
    names: &Names,
    start: &Scope,
    units: &Units<'_>,
    top: &str,
) -> Result<Flat, Stop>
    requires { start.now ≡ start_of names.now }
    ensures { Answers (spec.flattened names.now (known units.now) top.now) result }
{
    match walked(alloc, names, start, units, top) {
        Ok(site) => flat_of_site(alloc, site),
        Err(stop) => Err(stop),
    }
}

fn flatten_all(
    alloc: Global,
    names: &Names,
    start: &Scope,
    all: &[DesignUnit],
    top: &str,
) -> Result<Flat, Stop>
    requires { start.now ≡ start_of names.now }
    ensures { Answers (spec.flattened names.now all.now top.now) result }
{
    match Units::of(alloc, all) {
        Ok(units) => flatten_units(alloc, names, start, &units, top),
        Err(_) => Err(Stop::OutOfMemory),
    }
}

/// The flat design of a top in a file that keeps the rules of types and natures, or why there is none.
pub fn flatten(alloc: Global, names: &Names, file: &DesignFile, top: &str) -> Result<Flat, Stop>
    ensures { Answers (spec.flattened names.now file.now.units top.now) result }
{
    match start_of(alloc, names) {
        Ok(start) => flatten_all(alloc, names, &start, file.units.as_slice(), top),
        Err(_) => Err(Stop::OutOfMemory),
    }
}
