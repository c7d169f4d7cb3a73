//! Enumeration types (IEEE 1076, 5.2.2).
ghost use Rattle.std.specs.Prelude.{◌≡◌, ◌<◌, ◌≤◌, map, length, nat_le, None, OnOk, IfOk};
ghost use Rattle.name_scope.specs.declared.thing.Thing.TheVariants as thing;
ghost use Rattle.std.specs.List.{list_all};
ghost use Rattle.ams_tree.specs.declared.expression.Name.{Name as Written};
ghost use Rattle.elab_meaning.specs.Declarations as spec;
ghost use Rattle.elab_meaning.specs.Notes as noted;
ghost use Rattle.expr_types.specs.Known.{IsSoundScope};

use crate::declaring::{declare, declare_faulty};
use ams_token::{Names, Place};
use ams_tree::Name;
use ams_value::{Val, ValueType};
use elab_meaning::{Book, Cause};
use expr_types::{note, text_of};
use flat_design::{Enumeration, Name as Text};
use flat_expr::Constraint;
use name_scope::{Kind, Subtype, SubtypeConstraint, Thing};
use sqlite_items::Items;
use std::alloc::{AllocError, Global};

/// The most enumeration types of a design, and the most literals of one.
const MOST_NUMBERS: usize = 65_536;

/// The most bytes of a literal.
const MOST_LITERAL_BYTES: usize = 64;

fn is_short(names: &Names, literal: &Name) -> bool
    ensures { result ≡ nat_le (length (noted.text_of names.now literal.now.number)) 64 }
{
    text_of(names, literal.number).len() <= MOST_LITERAL_BYTES
}

fn are_short(names: &Names, literals: &[Name]) -> bool
    ensures { result ≡ list_all (λ (x : Written). nat_le (length (noted.text_of names.now x.number)) 64) literals.now }
{
    for literal in literals {
        if !is_short(names, literal) {
            return false;
        }
    }
    true
}

fn is_enumeration(names: &Names, literals: &[Name], book: &Book) -> bool
    ensures { result ≡ spec.is_enumeration names.now literals.now book.now }
{
    book.objects.enumerations.len() < MOST_NUMBERS
        && literals.len() <= MOST_NUMBERS
        && are_short(names, literals)
}

fn literal_text(alloc: Global, names: &Names, literal: &Name) -> Result<Text, AllocError>
    ensures { IfOk result (λ text. text ≡ noted.text_of names.now literal.now.number) }
{
    Items::from_slice(alloc, text_of(names, literal.number).as_bytes())
}

fn literal_texts(alloc: Global, names: &Names, literals: &[Name]) -> Result<Items<Text>, AllocError>
    ensures { IfOk result (λ texts. texts ≡ map (λ (x : Written). noted.text_of names.now x.number) literals.now) }
{
    let mut texts = Items::new(alloc);
    for literal in literals {
        texts.push(literal_text(alloc, names, literal)?)?;
    }
    Ok(texts)
}

fn declare_literals(number: u16, literals: &[Name], book: &mut Book) -> Result<(), AllocError>
    requires scope { IsSoundScope book.old.scope }
    requires count { length literals.now ≤ 65536 }
    ensures ok { OnOk result (book.new ≡ spec.literals_from number 0 literals.now book.old) }
    ensures sound { OnOk result (IsSoundScope book.new.scope) }
{
    let mut position = 0;
    while position < literals.len() {
        let value = Val::Enum(number, position as u16);
        declare(literals[position], Thing::Literal(value), book)?;
        position += 1;
    }
    Ok(())
}

fn new_enumeration(
    alloc: Global,
    names: &Names,
    name: Name,
    literals: &[Name],
    book: &mut Book,
) -> Result<(), AllocError>
    requires scope { IsSoundScope book.old.scope }
    requires count { length literals.now ≤ 65536 }
    requires types { length book.old.objects.enumerations < 65536 }
    ensures ok { let type = length book.old.objects.enumerations in OnOk result (book.new ≡ spec.literals_from type 0 literals.now (spec.declared (thing.Type (spec.of_enumeration type) None) name (spec.with_enumeration names.now literals.now book.old))) }
    ensures sound { OnOk result (IsSoundScope book.new.scope) }
{
    let number = book.objects.enumerations.len() as u16;
    let texts = literal_texts(alloc, names, literals)?;
    book.objects
        .enumerations
        .push(Enumeration { literals: texts })?;
    let subtype = Subtype {
        kind: Kind::Of(ValueType::Enumeration(number)),
        constraint: SubtypeConstraint::Range(Constraint::Whole),
    };
    declare(name, Thing::Type(subtype, None), book)?;
    declare_literals(number, literals, book)
}

/// Reads a declaration of an enumeration type with its literals.
pub fn declare_enumeration(
    alloc: Global,
    names: &Names,
    place: Place,
    name: Name,
    literals: &[Name],
    book: &mut Book,
) -> Result<(), AllocError>
    requires { IsSoundScope book.old.scope }
    ensures ok { OnOk result (book.new ≡ spec.enumeration names.now place name literals.now book.old) }
    ensures sound { OnOk result (IsSoundScope book.new.scope) }
{
    if is_enumeration(names, literals, book) {
        new_enumeration(alloc, names, name, literals, book)
    } else {
        note(&mut book.notes, place, Cause::WrongType)?;
        declare(name, Thing::Faulty, book)?;
        declare_faulty(literals, book)
    }
}
