//! Generics (IEEE 1076, 6.5.2 and 6.5.6.2).
ghost use Rattle.std.specs.Prelude.{◌≡◌, IfOk, OnOk};
ghost use Rattle.elab_meaning.specs.Declarations as declarations;
ghost use Rattle.elab_meaning.specs.Parts.{judged};
ghost use Rattle.unit_meaning.specs.Interfaces as spec;
ghost use Rattle.expr_types.specs.Known.{Finds, IsSoundScope};
ghost use Rattle.subtype_types.specs.Sound.{IsSoundValued, OnKept};

use ams_token::{Names, Place};
use ams_tree::{Expr, Generic, Name, SubtypeIndication};
use decl_names::{Entry, declare_each, declare_faulty, declare_wrong};
use elab_meaning::{Book, Notes, Part, Valued};
use name_scope::{Scope, Subtype};
use std::alloc::{AllocError, Global};
use subtype_types::{subtype, written_valued};

/// The place of the first token of a declaration of generics or ports.
pub fn first_place(place: Option<Place>, names: &[Name]) -> Place
    ensures { result ≡ spec.first_place place names.now }
{
    if let Some(place) = place {
        return place;
    }
    match names {
        [name, ..] => name.place,
        [] => Place { line: 0, column: 0 },
    }
}

fn unvalued_part(part: &Part<Subtype>) -> Part<Valued>
    ensures value { result ≡ judged spec.unvalued part.now }
    ensures sound { OnKept IsSoundValued result }
{
    match part {
        Part::Kept(subtype) => Part::Kept(Valued {
            subtype: *subtype,
            value: None,
        }),
        Part::Wrong => Part::Wrong,
        Part::Hidden => Part::Hidden,
    }
}

/// Reads the subtype of a generic, and its default where one is written.
pub fn generic_default(
    alloc: Global,
    names: &Names,
    scope: &Scope,
    indication: &SubtypeIndication,
    default: &Option<Expr>,
    notes: &mut Notes,
) -> Result<Part<Valued>, AllocError>
    requires { IsSoundScope scope.now }
    ensures found { Finds (spec.generic_default names.now scope.now indication.now default.now notes.old) result notes.new }
    ensures sound { IfOk result (OnKept IsSoundValued) }
{
    if let Some(expr) = default {
        return written_valued(alloc, names, scope, indication, expr, notes);
    }
    match subtype(alloc, names, scope, indication, notes) {
        Ok(part) => Ok(unvalued_part(&part)),
        Err(error) => Err(error),
    }
}

fn declare_generics(
    alloc: Global,
    names: &Names,
    place: Place,
    declared: &[Name],
    part: &Part<Valued>,
    book: &mut Book,
) -> Result<(), AllocError>
    requires { IsSoundScope book.old.scope }
    ensures ok { OnOk result (book.new ≡ declarations.declaring_each spec.generic_name place declared.now (book.old.notes, part.now) book.old) }
    ensures sound { OnOk result (IsSoundScope book.new.scope) }
{
    match part {
        Part::Kept(valued) => {
            let entry = Entry::Constant(valued.subtype, None);
            declare_each(alloc, names, &entry, declared, book)
        }
        Part::Wrong => declare_wrong(place, declared, book),
        Part::Hidden => declare_faulty(declared, book),
    }
}

/// Reads a declaration of generics, whose values aren't known here.
pub fn generic(
    alloc: Global,
    names: &Names,
    written: &Generic,
    book: &mut Book,
) -> Result<(), AllocError>
    requires { IsSoundScope book.old.scope }
    ensures ok { OnOk result (book.new ≡ spec.generic names.now book.old written.now) }
    ensures sound { OnOk result (IsSoundScope book.new.scope) }
{
    let declared = written.names.as_slice();
    let place = first_place(written.constant, declared);
    let (indication, default) = (&written.indication, &written.default);
    match generic_default(
        alloc,
        names,
        &book.scope,
        indication,
        default,
        &mut book.notes,
    ) {
        Ok(part) => declare_generics(alloc, names, place, declared, &part, book),
        Err(error) => Err(error),
    }
}
