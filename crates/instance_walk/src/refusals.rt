//! Why an instance isn't entered.
ghost use Rattle.std.specs.Prelude.{◌≡◌, Err};
ghost use Rattle.elab_meaning.specs.Notes as noted;
ghost use Rattle.unit_meaning.specs.declared.site.Limit.TheVariants.{Instances};
ghost use Rattle.unit_meaning.specs.declared.site.Refusal.TheVariants.{NoTop, Recursive, TooMany};
ghost use Rattle.unit_meaning.specs.declared.site.Site.{Site};
ghost use Rattle.walk_answers.specs.Answers.{Walks};

use ams_token::Names;
use expr_types::text_of;
use sqlite_items::Items;
use std::alloc::Global;
use unit_meaning::{Limit, Refusal, Request};
use walk_answers::Stop;

/// There are as many instances as a design may have.
pub fn too_many() -> Result<(), Stop>
    ensures { (site : Site) → Walks (Err (TooMany Instances)) result site }
{
    Err(Stop::Refused(Refusal::TooMany(Limit::Instances)))
}

/// There is no entity of this name, or it has no such architecture.
pub fn no_unit(alloc: Global, names: &Names, request: &Request) -> Result<(), Stop>
    ensures { (site : Site) → Walks (Err (NoTop (noted.text_of names.now request.now.entity))) result site }
{
    match Items::from_slice(alloc, text_of(names, request.entity).as_bytes()) {
        Ok(name) => Err(Stop::Refused(Refusal::NoTop(name))),
        Err(_) => Err(Stop::OutOfMemory),
    }
}

/// An entity is a part of itself.
pub fn recursive(alloc: Global, request: &Request) -> Result<(), Stop>
    ensures { (site : Site) → Walks (Err (Recursive request.now.path)) result site }
{
    match Items::from_slice(alloc, request.path.as_slice()) {
        Ok(path) => Err(Stop::Refused(Refusal::Recursive(path))),
        Err(_) => Err(Stop::OutOfMemory),
    }
}
