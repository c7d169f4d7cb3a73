//! Parts of entering.
ghost use Rattle.std.specs.Prelude.{◌≡◌, Some, IfSome, OnOk};
ghost use Rattle.elab_meaning.specs.Declarations.{declared};
ghost use Rattle.elab_meaning.specs.Parts as parts;
ghost use Rattle.expr_types.specs.Known.{IsSoundScope, IsSoundThing};
ghost use Rattle.subtype_types.specs.Sound.{IsSoundValued, OnKept};
ghost use Rattle.generic_entry.specs.Entering.{Enters};

use ams_tree::Name;
use decl_names::declare;
use elab_meaning::{Book, Part, Valued};
use name_scope::Thing;
use std::alloc::AllocError;

/// Declares a name, which the associations fit.
pub fn declare_fitting(name: Name, thing: Thing, book: &mut Book) -> Result<bool, AllocError>
    requires scope { IsSoundScope book.old.scope }
    requires thing { IsSoundThing thing }
    ensures entered { Enters (Some (declared thing name book.old)) result book.new }
    ensures sound { OnOk result (IsSoundScope book.new.scope) }
{
    declare(name, thing, book)?;
    Ok(true)
}

/// What a declaration gives, where it keeps the rules.
pub fn kept(part: &Part<Valued>) -> Option<Valued>
    ensures value { result ≡ parts.kept part.now }
    ensures sound { OnKept IsSoundValued part.now → IfSome result IsSoundValued }
{
    match part {
        Part::Kept(valued) => Some(*valued),
        Part::Wrong | Part::Hidden => None,
    }
}
