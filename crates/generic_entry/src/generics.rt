//! The generics of an instance.
ghost use Rattle.std.specs.Prelude.{◌≡◌, OnOk};
ghost use Rattle.unit_meaning.specs.Walk as spec;
ghost use Rattle.expr_types.specs.Known.{IsSoundScope};
ghost use Rattle.subtype_types.specs.Sound.{IsSoundValued, OnKept};
ghost use Rattle.instance_matches.specs.Sound.{IsSoundGiven};
ghost use Rattle.generic_entry.specs.Entering.{Enters, generic_entered_from, generic_judged};

use crate::fitting::kept;
use crate::generic_names::enter_generic_names;
use ams_token::Names;
use ams_tree::{Expr, Generic};
use elab_meaning::{Book, Part, Valued};
use instance_counts::sum_of;
use instance_matches::Matches;
use interface_types::{first_place, generic_default};
use std::alloc::{AllocError, Global};
use subtype_types::close;

fn is_there(default: &Option<Expr>) -> bool
    ensures { result ≡ spec.is_there default.now }
{
    match default {
        Some(_) => true,
        None => false,
    }
}

fn enter_judged(
    given: &Matches<'_>,
    first: u32,
    generic: &Generic,
    part: &Part<Valued>,
    book: &mut Book,
) -> Result<bool, AllocError>
    requires scope { IsSoundScope book.old.scope }
    requires part { OnKept IsSoundValued part.now }
    requires given { IsSoundGiven given.now }
    ensures entered { Enters (generic_judged given.now first generic.now (book.old.notes, part.now) book.old) result book.new }
    ensures sound { OnOk result (IsSoundScope book.new.scope) }
{
    let declared = generic.names.as_slice();
    let place = first_place(generic.constant, declared);
    close(place, part, &mut book.notes)?;
    let has_default = is_there(&generic.default);
    enter_generic_names(given, first, &kept(part), has_default, declared, book)
}

/// Enters a declaration of generics, the first of which has this place in the interface.
fn enter_declaration(
    alloc: Global,
    names: &Names,
    given: &Matches<'_>,
    first: u32,
    generic: &Generic,
    book: &mut Book,
) -> Result<bool, AllocError>
    requires scope { IsSoundScope book.old.scope }
    requires given { IsSoundGiven given.now }
    ensures entered { Enters (generic_entered_from names.now given.now first generic.now book.old) result book.new }
    ensures sound { OnOk result (IsSoundScope book.new.scope) }
{
    let (indication, default) = (&generic.indication, &generic.default);
    match generic_default(
        alloc,
        names,
        &book.scope,
        indication,
        default,
        &mut book.notes,
    ) {
        Ok(part) => enter_judged(given, first, generic, &part, book),
        Err(error) => Err(error),
    }
}

/// Enters the generics of an entity, and answers whether the associations fit.
pub fn enter_generics(
    alloc: Global,
    names: &Names,
    given: &Matches<'_>,
    generics: &[Generic],
    book: &mut Book,
) -> Result<bool, AllocError>
    requires scope { IsSoundScope book.old.scope }
    requires given { IsSoundGiven given.now }
    ensures entered { Enters (spec.generics_entered names.now given.now 0 generics.now book.old) result book.new }
    ensures sound { OnOk result (IsSoundScope book.new.scope) }
{
    let mut place = 0;
    for generic in generics {
        if !enter_declaration(alloc, names, given, place, generic, book)? {
            return Ok(false);
        }
        place = sum_of(place, generic.names.len())?;
    }
    Ok(true)
}
