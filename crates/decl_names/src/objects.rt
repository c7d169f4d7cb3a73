//! Names that stand for objects of the flat design.
ghost use Rattle.std.specs.Prelude.{◌≡◌, OnOk, IfOk};
ghost use Rattle.elab_meaning.specs.Declarations as spec;
ghost use Rattle.expr_types.specs.Known.{IsSoundScope};

use crate::declaring::declare;
use ams_token::Names;
use ams_tree::Name;
use ams_value::Val;
use elab_meaning::{Book, Valued};
use expr_types::{text_of, value_type};
use fix_core::Fix;
use flat_design::{Node, Quantity, QuantityKind, Signal, Terminal};
use flat_expr::Constraint;
use name_scope::{Access, QuantityClass, SubtypeConstraint, Thing};
use sqlite_items::Items;
use std::alloc::{AllocError, Global};
use subtype_types::leftmost;

/// The number of a new object behind so many.
pub fn number_behind(count: usize) -> Result<u32, AllocError>
    ensures { IfOk result (λ number. number ≡ count) }
{
    match u32::try_from(count) {
        Ok(number) => Ok(number),
        Err(_) => Err(AllocError),
    }
}

/// The path of an object: that of its instance, and its name.
pub fn path_of(
    alloc: Global,
    names: &Names,
    name: Name,
    book: &Book,
) -> Result<Items<u8>, AllocError>
    ensures { IfOk result (λ path. path ≡ spec.path_of names.now name book.now) }
{
    let mut path = Vec::from_slice(alloc, book.path.as_slice())?;
    path.push(b'.')?;
    path.extend_from_slice(text_of(names, name.number).as_bytes())?;
    Ok(Items::from_vec(path))
}

/// The range of values of a subtype, as the flat design has it.
pub fn constraint_of(constraint: &SubtypeConstraint) -> Constraint
    ensures { result ≡ spec.range_part constraint.now }
{
    match constraint {
        SubtypeConstraint::Range(range) => *range,
        SubtypeConstraint::Index(_) | SubtypeConstraint::Later => Constraint::Whole,
    }
}

/// The value that is given, or the subtype's leftmost one where it isn't known here.
pub fn value_or_leftmost(valued: &Valued) -> Val
    ensures { result ≡ spec.value_or_leftmost valued.now.subtype valued.now.value }
{
    match &valued.value {
        Some(value) => *value,
        None => leftmost(&valued.subtype),
    }
}

pub fn signal(
    alloc: Global,
    names: &Names,
    access: Access,
    valued: &Valued,
    name: Name,
    book: &mut Book,
) -> Result<(), AllocError>
    requires { IsSoundScope book.old.scope }
    ensures ok { OnOk result (book.new ≡ spec.signal_of names.now access valued.now name book.old) }
    ensures sound { OnOk result (IsSoundScope book.new.scope) }
{
    let number = number_behind(book.objects.signals.len())?;
    let path = path_of(alloc, names, name, book)?;
    book.objects.signals.push(Signal {
        path,
        kind: value_type(valued.subtype.kind),
        constraint: constraint_of(&valued.subtype.constraint),
        initial: value_or_leftmost(valued),
    })?;
    declare(name, Thing::Signal(number, valued.subtype, access), book)
}

pub fn node(
    alloc: Global,
    names: &Names,
    nature: u32,
    name: Name,
    book: &mut Book,
) -> Result<(), AllocError>
    requires { IsSoundScope book.old.scope }
    ensures ok { OnOk result (book.new ≡ spec.node names.now nature name book.old) }
    ensures sound { OnOk result (IsSoundScope book.new.scope) }
{
    let number = number_behind(book.objects.nodes.len())?;
    let path = path_of(alloc, names, name, book)?;
    book.objects.nodes.push(Node { path })?;
    declare(name, Thing::Terminal(Terminal::Node(number), nature), book)
}

pub fn quantity(
    alloc: Global,
    names: &Names,
    kind: QuantityKind,
    class: QuantityClass,
    initial: Fix,
    name: Name,
    book: &mut Book,
) -> Result<(), AllocError>
    requires { IsSoundScope book.old.scope }
    ensures ok { OnOk result (book.new ≡ spec.quantity_of names.now kind class initial name book.old) }
    ensures sound { OnOk result (IsSoundScope book.new.scope) }
{
    let number = number_behind(book.objects.quantities.len())?;
    let path = path_of(alloc, names, name, book)?;
    book.objects.quantities.push(Quantity {
        path,
        kind,
        initial,
    })?;
    declare(name, Thing::Quantity(number, class), book)
}
