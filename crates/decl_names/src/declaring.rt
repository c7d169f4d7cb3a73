//! Declaring a name.
ghost use Rattle.std.specs.Prelude.{◌≡◌, ◌∷◌, [], OnOk};
ghost use Rattle.elab_meaning.specs.Declarations as spec;
ghost use Rattle.elab_meaning.specs.Notes.{noted};
ghost use Rattle.elab_meaning.specs.declared.fault.Cause.TheVariants as cause;
ghost use Rattle.expr_types.specs.Known.{IsSoundScope, IsSoundThing};

use ams_token::Place;
use ams_tree::Name;
use elab_meaning::{Book, Cause};
use expr_types::note;
use name_scope::Thing;
use std::alloc::AllocError;

/// Declares a name in the innermost region. One that the region has already keeps what it stands for, and is noted.
#[tactic(auto, using(crate::proofs::Sound::still_sound))]
pub fn declare(name: Name, thing: Thing, book: &mut Book) -> Result<(), AllocError>
    requires scope { IsSoundScope book.old.scope }
    requires thing { IsSoundThing thing }
    ensures ok { OnOk result (book.new ≡ spec.declared thing name book.old) }
    ensures sound { OnOk result (IsSoundScope book.new.scope) }
{
    if book.scope.declare(name.number, thing)? {
        Ok(())
    } else {
        note(&mut book.notes, name.place, Cause::Duplicate(name.number))
    }
}

/// Declares the names of a declaration that breaks a rule: nothing more is said of them.
pub fn declare_faulty(names: &[Name], book: &mut Book) -> Result<(), AllocError>
    requires { IsSoundScope book.old.scope }
    ensures ok { OnOk result (book.new ≡ spec.each spec.faulty names.now book.old) }
    ensures sound { OnOk result (IsSoundScope book.new.scope) }
{
    for name in names {
        declare(*name, Thing::Faulty, book)?;
    }
    Ok(())
}

/// The same of a declaration that breaks a rule itself, which is noted at its place.
pub fn declare_wrong(place: Place, names: &[Name], book: &mut Book) -> Result<(), AllocError>
    requires { IsSoundScope book.old.scope }
    ensures ok { OnOk result (book.new ≡ spec.each spec.faulty names.now (spec.with_notes (noted place cause.WrongType book.old.notes) book.old)) }
    ensures sound { OnOk result (IsSoundScope book.new.scope) }
{
    note(&mut book.notes, place, Cause::WrongType)?;
    declare_faulty(names, book)
}
