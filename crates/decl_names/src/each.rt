//! The names of a declaration, each of them by one rule.
ghost use Rattle.std.specs.Prelude.{◌≡◌, ℕ, List, OnOk};
ghost use Rattle.ams_tree.specs.declared.expression.Name.{Name as Written};
ghost use Rattle.elab_meaning.specs.declared.book.Book.{Book as Seen};
ghost use Rattle.elab_meaning.specs.Declarations as spec;
ghost use Rattle.expr_types.specs.Known.{IsSoundScope};
ghost use Rattle.subtype_types.specs.Sound.{IsSoundValued, OnKept};
ghost use Rattle.decl_names.specs.Entries.{IsSoundEntry, declared_as};

use crate::declaring::{declare, declare_faulty, declare_wrong};
use crate::entry::Entry;
use crate::objects::{node, quantity, signal};
use ams_token::{Names, Place};
use ams_tree::Name;
use elab_meaning::{Book, Part, Valued};
use fix_core::Fix;
use flat_design::QuantityKind;
use name_scope::{Access, Kind, QuantityClass, Subtype, Thing};
use std::alloc::{AllocError, Global};

fn declare_as(
    alloc: Global,
    names: &Names,
    entry: &Entry,
    name: Name,
    book: &mut Book,
) -> Result<(), AllocError>
    requires scope { IsSoundScope book.old.scope }
    requires entry { IsSoundEntry entry.now }
    ensures ok { OnOk result (book.new ≡ declared_as names.now entry.now name book.old) }
    ensures sound { OnOk result (IsSoundScope book.new.scope) }
{
    match entry {
        Entry::Signal(access, valued) => signal(alloc, names, *access, valued, name, book),
        Entry::Constant(subtype, value) => {
            declare(name, Thing::Constant(*subtype, *value), book)
        }
        Entry::Node(nature) => node(alloc, names, *nature, name, book),
        Entry::Quantity(kind, class, initial) => {
            quantity(alloc, names, *kind, *class, *initial, name, book)
        }
        Entry::Type(subtype) => declare(name, Thing::Type(*subtype, None), book),
    }
}

/// Declares names one after the other.
pub fn declare_each(
    alloc: Global,
    names: &Names,
    entry: &Entry,
    declared: &[Name],
    book: &mut Book,
) -> Result<(), AllocError>
    requires scope { IsSoundScope book.old.scope }
    requires entry { IsSoundEntry entry.now }
    ensures ok { OnOk result (book.new ≡ spec.each (declared_as names.now entry.now) declared.now book.old) }
    ensures sound { OnOk result (IsSoundScope book.new.scope) }
{
    for name in declared {
        declare_as(alloc, names, entry, *name, book)?;
    }
    Ok(())
}

/// Declares the names of a declaration of signals.
pub fn declare_signals(
    alloc: Global,
    names: &Names,
    access: Access,
    place: Place,
    declared: &[Name],
    part: &Part<Valued>,
    book: &mut Book,
) -> Result<(), AllocError>
    requires { IsSoundScope book.old.scope }
    ensures ok { OnOk result (book.new ≡ spec.declaring_each (spec.signal_of names.now access) place declared.now (book.old.notes, part.now) book.old) }
    ensures sound { OnOk result (IsSoundScope book.new.scope) }
{
    match part {
        Part::Kept(valued) => {
            declare_each(
                alloc,
                names,
                &Entry::Signal(access, *valued),
                declared,
                book,
            )
        }
        Part::Wrong => declare_wrong(place, declared, book),
        Part::Hidden => declare_faulty(declared, book),
    }
}

/// A constant; where the length of a vector follows from generics, so does its value.
fn constant_of(valued: &Valued) -> Entry
    requires { IsSoundValued valued.now }
    ensures entry { (texts : List (List ℕ)) (x : Written) (b : Seen) → declared_as texts result x b ≡ spec.constant valued.now x b }
    ensures sound { IsSoundEntry result }
{
    match valued.subtype.kind {
        Kind::Of(_) => Entry::Constant(valued.subtype, valued.value),
        Kind::Vector => Entry::Constant(valued.subtype, None),
    }
}

/// Declares the names of a declaration of constants.
pub fn declare_constants(
    alloc: Global,
    names: &Names,
    place: Place,
    declared: &[Name],
    part: &Part<Valued>,
    book: &mut Book,
) -> Result<(), AllocError>
    requires scope { IsSoundScope book.old.scope }
    requires part { OnKept IsSoundValued part.now }
    ensures ok { OnOk result (book.new ≡ spec.declaring_each spec.constant place declared.now (book.old.notes, part.now) book.old) }
    ensures sound { OnOk result (IsSoundScope book.new.scope) }
{
    match part {
        Part::Kept(valued) => declare_each(alloc, names, &constant_of(valued), declared, book),
        Part::Wrong => declare_wrong(place, declared, book),
        Part::Hidden => declare_faulty(declared, book),
    }
}

/// Declares the names of a declaration of terminals.
pub fn declare_nodes(
    alloc: Global,
    names: &Names,
    place: Place,
    declared: &[Name],
    part: &Part<u32>,
    book: &mut Book,
) -> Result<(), AllocError>
    requires { IsSoundScope book.old.scope }
    ensures ok { OnOk result (book.new ≡ spec.declaring_each (spec.node names.now) place declared.now (book.old.notes, part.now) book.old) }
    ensures sound { OnOk result (IsSoundScope book.new.scope) }
{
    match part {
        Part::Kept(nature) => declare_each(alloc, names, &Entry::Node(*nature), declared, book),
        Part::Wrong => declare_wrong(place, declared, book),
        Part::Hidden => declare_faulty(declared, book),
    }
}

/// Declares the names of a declaration of quantities with one initial value.
pub fn declare_quantities(
    alloc: Global,
    names: &Names,
    kind: QuantityKind,
    class: QuantityClass,
    place: Place,
    declared: &[Name],
    part: &Part<Fix>,
    book: &mut Book,
) -> Result<(), AllocError>
    requires { IsSoundScope book.old.scope }
    ensures ok { OnOk result (book.new ≡ spec.declaring_each (spec.quantity_of names.now kind class) place declared.now (book.old.notes, part.now) book.old) }
    ensures sound { OnOk result (IsSoundScope book.new.scope) }
{
    match part {
        Part::Kept(initial) => {
            declare_each(
                alloc,
                names,
                &Entry::Quantity(kind, class, *initial),
                declared,
                book,
            )
        }
        Part::Wrong => declare_wrong(place, declared, book),
        Part::Hidden => declare_faulty(declared, book),
    }
}

/// Declares the names of a declaration of subtypes.
pub fn declare_types(
    alloc: Global,
    names: &Names,
    place: Place,
    declared: &[Name],
    part: &Part<Subtype>,
    book: &mut Book,
) -> Result<(), AllocError>
    requires { IsSoundScope book.old.scope }
    ensures ok { OnOk result (book.new ≡ spec.declaring_each spec.type_of_subtype place declared.now (book.old.notes, part.now) book.old) }
    ensures sound { OnOk result (IsSoundScope book.new.scope) }
{
    match part {
        Part::Kept(subtype) => declare_each(alloc, names, &Entry::Type(*subtype), declared, book),
        Part::Wrong => declare_wrong(place, declared, book),
        Part::Hidden => declare_faulty(declared, book),
    }
}
