//! Parts of declarations.
ghost use Rattle.std.specs.Prelude.{◌≡◌, IfOk, IfSome, OnOk};
ghost use Rattle.elab_meaning.specs.declared.fault.Notes.{Notes as Seen};
ghost use Rattle.elab_meaning.specs.Parts as spec;
ghost use Rattle.elab_meaning.specs.Subtypes as subtypes;
ghost use Rattle.expr_types.specs.Known.{Finds, IsSoundAsked, IsSoundScope};
ghost use Rattle.subtype_types.specs.Sound.{OnKept};

use ams_token::{Names, Place};
use ams_tree::{Expr, Name};
use elab_meaning::{Asked, Cause, Context, Notes, Part, Surrounding};
use expr_types::{note, static_value};
use name_scope::{Scope, Thing};
use std::alloc::{AllocError, Global};

/// Notes that the declaration or statement at this place breaks a rule, where it does so itself.
pub fn close<T>(place: Place, part: &Part<T>, notes: &mut Notes) -> Result<(), AllocError>
    ensures { OnOk result (notes.new ≡ spec.closed place part.now notes.old) }
{
    match part {
        Part::Wrong => note(notes, place, Cause::WrongType),
        Part::Kept(_) | Part::Hidden => Ok(()),
    }
}

/// Notes a name that is looked for, where it is none.
pub fn note_unknown(name: Name, thing: &Option<Thing>, notes: &mut Notes) -> Result<(), AllocError>
    ensures { OnOk result (notes.new ≡ (spec.found_thing name thing.now notes.old).0) }
{
    match thing {
        None => note(notes, name.place, Cause::Unknown(name.number)),
        Some(_) => Ok(()),
    }
}

fn asked_part(found: Option<Asked>) -> Part<Asked>
    requires { IfSome found IsSoundAsked }
    ensures value { result ≡ spec.part_of found }
    ensures sound { OnKept IsSoundAsked result }
{
    match found {
        Some(asked) => Part::Kept(asked),
        None => Part::Hidden,
    }
}

/// Reads an expression of a declaration whose value is asked before the run.
pub fn static_part(
    alloc: Global,
    names: &Names,
    scope: &Scope,
    expr: &Expr,
    notes: &mut Notes,
) -> Result<Part<Asked>, AllocError>
    requires { IsSoundScope scope.now }
    ensures found { Finds (subtypes.static_part names.now scope.now expr.now notes.old) result notes.new }
    ensures sound { IfOk result (OnKept IsSoundAsked) }
{
    let declaring = Context {
        surrounding: Surrounding::Declaration,
        is_static: true,
    };
    match static_value(alloc, names, scope, declaring, expr, notes) {
        Ok(found) => Ok(asked_part(found)),
        Err(error) => Err(error),
    }
}
