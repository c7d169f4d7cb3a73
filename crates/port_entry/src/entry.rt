//! An instance while its ports are entered.
ghost use Rattle.std.specs.Prelude.{Some, None, if◌then◌else◌, OnOk};
ghost use Rattle.unit_meaning.specs.Walk.{bound};
ghost use Rattle.expr_types.specs.Known.{IsSoundScope, IsSoundThing};
ghost use Rattle.generic_entry.specs.Entering.{Enters};
ghost use Rattle.port_entry.specs.Entries.{entry_of};

use ams_tree::Name;
use decl_names::declare;
use elab_meaning::Book;
use name_scope::Thing;
use sqlite_items::Items;
use std::alloc::AllocError;

/// An instance while its ports are entered: what is read, and the quantities that are actuals of ports of mode out, each by
/// the instance in which it is named.
#[derive(Drop)]
pub struct Entry {
    pub book: Book,
    pub used: Items<(u32, u32)>,
}

/// Binds a port to what it stands for.
pub fn bind(thing: Thing, name: Name, entry: &mut Entry) -> Result<bool, AllocError>
    requires scope { IsSoundScope entry.old.book.scope }
    requires thing { IsSoundThing thing }
    ensures entered { Enters (Some (bound thing name (entry_of entry.old))) result (entry_of entry.new) }
    ensures sound { OnOk result (IsSoundScope entry.new.book.scope) }
{
    declare(name, thing, &mut entry.book)?;
    Ok(true)
}

/// Binds a port, where its actual fits.
pub fn bind_if(fits: bool, thing: Thing, name: Name, entry: &mut Entry) -> Result<bool, AllocError>
    requires scope { IsSoundScope entry.old.book.scope }
    requires thing { IsSoundThing thing }
    ensures entered { Enters (if fits then Some (bound thing name (entry_of entry.old)) else None) result (entry_of entry.new) }
    ensures sound { OnOk result (IsSoundScope entry.new.book.scope) }
{
    if fits {
        bind(thing, name, entry)
    } else {
        Ok(false)
    }
}
