//! The interface of an instance behind the flat design so far (IEEE 1076, 14.3 and 14.4).
ghost use Rattle.std.specs.Prelude.{◌≡◌, IfOk, IfSome, OnOk};
ghost use Rattle.unit_meaning.specs.Walk as spec;
ghost use Rattle.expr_types.specs.Known.{IsSoundScope};
ghost use Rattle.instance_matches.specs.Sound.{AreSound};
ghost use Rattle.port_entry.specs.Entries.{some_entry};
ghost use Rattle.instance_body.specs.Bodies.{without_objects};

use ams_token::Names;
use ams_tree::Entity;
use flat_design::Objects;
use instance_entry::entry_of_instance;
use port_entry::Entry;
use sqlite_items::Items;
use std::alloc::{AllocError, Global};
use std::mem;
use unit_meaning::{Request, Site};

/// Takes the objects and the used quantities out of the flat design so far, and reads the interface of an instance behind
/// them. None where the associations don't fit.
pub fn take_entry(
    alloc: Global,
    names: &Names,
    request: &Request,
    entity: &Entity,
    site: &mut Site,
) -> Result<Option<Entry>, AllocError>
    requires { AreSound request.now.generics }
    ensures value { IfOk result (λ found. some_entry found ≡ spec.entry_of_instance names.now request.now entity.now site.old) }
    ensures sound { IfOk result (λ found. IfSome found (λ e. IsSoundScope e.book.scope)) }
    ensures site { site.new ≡ without_objects site.old }
{
    let objects = mem::replace(&mut site.objects, Objects::new(alloc));
    let used = mem::replace(&mut site.used, Items::new(alloc));
    entry_of_instance(alloc, names, request, entity, objects, used)
}
