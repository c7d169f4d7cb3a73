//! The subtypes of generics, as far as they are known without values.
ghost use Rattle.std.specs.Prelude.{◌≡◌, ◌++◌, map, Some, IfOk, OnOk};
ghost use Rattle.elab_meaning.specs.Declarations as declarations;
ghost use Rattle.elab_meaning.specs.Parts as parts;
ghost use Rattle.elab_meaning.specs.Subtypes as subtypes;
ghost use Rattle.unit_meaning.specs.Associations as associations;
ghost use Rattle.unit_meaning.specs.Interfaces as interfaces;
ghost use Rattle.unit_meaning.specs.Units as units;
ghost use Rattle.expr_types.specs.Known.{Finds, IsSoundScope};
ghost use Rattle.formal_lists.specs.Pairs as pairs;
ghost use Rattle.formal_lists.specs.Reading as spec;

use crate::generics::{GenericFormal, GenericFormals};
use ams_token::{Names, Place};
use ams_tree::{Entity, Expr, Generic, Name};
use decl_names::{Entry, declare_each, declare_faulty, declare_wrong};
use elab_meaning::{Book, Notes, Part, Valued};
use interface_types::first_place;
use name_scope::{Scope, Subtype};
use sqlite_items::Items;
use start_scope::{new_book, start_of};
use std::alloc::{AllocError, Global};
use subtype_types::{initial, subtype};

fn kept(part: &Part<Subtype>) -> Option<Subtype>
    ensures { result ≡ parts.kept part.now }
{
    match part {
        Part::Kept(subtype) => Some(*subtype),
        Part::Wrong | Part::Hidden => None,
    }
}

fn unvalued_part(part: &Part<Subtype>) -> Part<Valued>
    ensures { result ≡ parts.judged interfaces.unvalued part.now }
{
    match part {
        Part::Kept(subtype) => Part::Kept(Valued {
            subtype: *subtype,
            value: None,
        }),
        Part::Wrong => Part::Wrong,
        Part::Hidden => Part::Hidden,
    }
}

/// The subtype of a generic with its default, where one is written.
fn default_behind(
    alloc: Global,
    names: &Names,
    scope: &Scope,
    part: &Part<Subtype>,
    default: &Option<Expr>,
    notes: &mut Notes,
) -> Result<Part<Valued>, AllocError>
    requires { IsSoundScope scope.now }
    ensures { Finds (spec.default_behind names.now scope.now part.now default.now notes.old) result notes.new }
{
    if default.is_none() {
        return Ok(unvalued_part(part));
    }
    initial(alloc, names, scope, part, default, notes)
}

fn declare_generics(
    alloc: Global,
    names: &Names,
    place: Place,
    declared: &[Name],
    part: &Part<Valued>,
    book: &mut Book,
) -> Result<(), AllocError>
    requires { IsSoundScope book.old.scope }
    ensures ok { OnOk result (book.new ≡ declarations.declaring_each interfaces.generic_name place declared.now (book.old.notes, part.now) book.old) }
    ensures sound { OnOk result (IsSoundScope book.new.scope) }
{
    match part {
        Part::Kept(valued) => {
            let entry = Entry::Constant(valued.subtype, None);
            declare_each(alloc, names, &entry, declared, book)
        }
        Part::Wrong => declare_wrong(place, declared, book),
        Part::Hidden => declare_faulty(declared, book),
    }
}

/// Declares generics whose subtype is read.
fn generic_behind(
    alloc: Global,
    names: &Names,
    part: &Part<Subtype>,
    written: &Generic,
    book: &mut Book,
) -> Result<(), AllocError>
    requires { IsSoundScope book.old.scope }
    ensures ok { OnOk result (book.new ≡ spec.generic_behind names.now part.now written.now book.old) }
    ensures sound { OnOk result (IsSoundScope book.new.scope) }
{
    let declared = written.names.as_slice();
    let place = first_place(written.constant, declared);
    let default = &written.default;
    match default_behind(alloc, names, &book.scope, part, default, &mut book.notes) {
        Ok(part) => declare_generics(alloc, names, place, declared, &part, book),
        Err(error) => Err(error),
    }
}

fn add_names(
    names: &[Name],
    part: &Part<Subtype>,
    entries: &mut Items<GenericFormal>,
) -> Result<(), AllocError>
    ensures { OnOk result (entries.new ≡ entries.old ++ map (pairs.generic_of (parts.kept part.now)) names.now) }
{
    for name in names {
        entries.push(GenericFormal {
            name: name.number,
            subtype: kept(part),
        })?;
    }
    Ok(())
}

fn add_behind(
    alloc: Global,
    names: &Names,
    part: &Part<Subtype>,
    written: &Generic,
    book: &mut Book,
    entries: &mut Items<GenericFormal>,
) -> Result<(), AllocError>
    requires { IsSoundScope book.old.scope }
    ensures ok { OnOk result (book.new ≡ spec.generic_behind names.now part.now written.now book.old) }
    ensures entries { OnOk result (entries.new ≡ entries.old ++ spec.generics_of written.now part.now) }
    ensures sound { OnOk result (IsSoundScope book.new.scope) }
{
    add_names(written.names.as_slice(), part, entries)?;
    generic_behind(alloc, names, part, written, book)
}

#[tactic(auto, using(crate::proofs::ReadOnce::read_once))]
fn add_generic(
    alloc: Global,
    names: &Names,
    written: &Generic,
    book: &mut Book,
    entries: &mut Items<GenericFormal>,
) -> Result<(), AllocError>
    requires { IsSoundScope book.old.scope }
    ensures ok { OnOk result (book.new ≡ interfaces.generic names.now book.old written.now) }
    ensures entries { OnOk result (entries.new ≡ entries.old ++ spec.generics_of written.now (subtypes.subtype names.now book.old.scope written.now.indication book.old.notes).1) }
    ensures sound { OnOk result (IsSoundScope book.new.scope) }
{
    let indication = &written.indication;
    match subtype(alloc, names, &book.scope, indication, &mut book.notes) {
        Ok(part) => add_behind(alloc, names, &part, written, book, entries),
        Err(error) => Err(error),
    }
}

#[tactic(auto, using(std::proofs::lemmas::List::append_assoc))]
fn add_generics(
    alloc: Global,
    names: &Names,
    generics: &[Generic],
    book: &mut Book,
    entries: &mut Items<GenericFormal>,
) -> Result<(), AllocError>
    requires { IsSoundScope book.old.scope }
    ensures { OnOk result (entries.new ≡ entries.old ++ spec.formals_from names.now book.old generics.now) }
{
    for written in generics {
        add_generic(alloc, names, written, book, entries)?;
    }
    Ok(())
}

/// The generics of an entity with their subtypes, as far as these are known without values.
#[tactic(auto, using(crate::proofs::ReadOnce::all_generics))]
pub fn generic_formals(
    alloc: Global,
    names: &Names,
    entity: &Entity,
) -> Result<GenericFormals, AllocError>
    ensures { IfOk result (λ formals. formals ≡ associations.generic_formals names.now (units.start_of names.now) (Some entity.now)) }
{
    let mut entries = Items::new(alloc);
    let mut book = new_book(alloc, start_of(alloc, names)?);
    let read = add_generics(
        alloc,
        names,
        entity.generics.as_slice(),
        &mut book,
        &mut entries,
    );
    drop(book);
    read?;
    GenericFormals::new(alloc, entries)
}
