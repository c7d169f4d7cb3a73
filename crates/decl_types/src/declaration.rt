//! Declarations of an architecture.
ghost use Rattle.std.specs.Prelude.{◌≡◌, ◌∷◌, [], Some, OnOk};
ghost use Rattle.elab_meaning.specs.Declarations as spec;
ghost use Rattle.elab_meaning.specs.Subtypes.{subtype, valued};
ghost use Rattle.flat_design.specs.declared.objects.QuantityKind.TheVariants as kind;
ghost use Rattle.name_scope.specs.declared.thing.QuantityClass.TheVariants as class;
ghost use Rattle.name_scope.specs.declared.thing.Access.TheVariants as access;
ghost use Rattle.expr_types.specs.Known.{IsSoundScope};

use crate::branch::branch_quantities;
use crate::nature::{nature, nature_named};
use crate::quantity::free_quantity;
use ams_token::{Names, Place};
use ams_tree::{Declaration, Expr, Name, SubtypeIndication};
use decl_names::{
    declare_constants, declare_enumeration, declare_nodes, declare_quantities, declare_signals,
    declare_types,
};
use elab_meaning::Book;
use flat_design::QuantityKind;
use name_scope::{Access, QuantityClass};
use sqlite_items::Items;
use std::alloc::{AllocError, Global};
use subtype_types::{subtype, valued, written_valued};

/// Reads a declaration of signals, which may be assigned so.
pub fn signals(
    alloc: Global,
    names: &Names,
    access: Access,
    place: Place,
    declared: &[Name],
    indication: &SubtypeIndication,
    expr: &Option<Expr>,
    book: &mut Book,
) -> Result<(), AllocError>
    requires { IsSoundScope book.old.scope }
    ensures ok { OnOk result (book.new ≡ spec.declaring_each (spec.signal_of names.now access) place declared.now (valued names.now book.old.scope indication.now expr.now book.old.notes) book.old) }
    ensures sound { OnOk result (IsSoundScope book.new.scope) }
{
    match valued(alloc, names, &book.scope, indication, expr, &mut book.notes) {
        Ok(part) => declare_signals(alloc, names, access, place, declared, &part, book),
        Err(error) => Err(error),
    }
}

/// Reads a declaration of constants.
pub fn constants(
    alloc: Global,
    names: &Names,
    place: Place,
    declared: &[Name],
    indication: &SubtypeIndication,
    expr: &Expr,
    book: &mut Book,
) -> Result<(), AllocError>
    requires { IsSoundScope book.old.scope }
    ensures ok { OnOk result (book.new ≡ spec.declaring_each spec.constant place declared.now (valued names.now book.old.scope indication.now (Some expr.now) book.old.notes) book.old) }
    ensures sound { OnOk result (IsSoundScope book.new.scope) }
{
    match written_valued(alloc, names, &book.scope, indication, expr, &mut book.notes) {
        Ok(part) => declare_constants(alloc, names, place, declared, &part, book),
        Err(error) => Err(error),
    }
}

/// Reads a declaration of terminals with their nature.
pub fn terminals(
    alloc: Global,
    names: &Names,
    place: Place,
    declared: &[Name],
    nature: Name,
    book: &mut Book,
) -> Result<(), AllocError>
    requires { IsSoundScope book.old.scope }
    ensures ok { OnOk result (book.new ≡ spec.declaring_each (spec.node names.now) place declared.now (spec.nature_named nature book.old) book.old) }
    ensures sound { OnOk result (IsSoundScope book.new.scope) }
{
    let part = nature_named(nature, book)?;
    declare_nodes(alloc, names, place, declared, &part, book)
}

fn free_quantities(
    alloc: Global,
    names: &Names,
    place: Place,
    declared: &[Name],
    indication: &SubtypeIndication,
    expr: &Option<Expr>,
    book: &mut Book,
) -> Result<(), AllocError>
    requires { IsSoundScope book.old.scope }
    ensures ok { OnOk result (book.new ≡ spec.declaring_each (spec.quantity_of names.now kind.Free class.Free) place declared.now (spec.free_quantity names.now indication.now expr.now book.old) book.old) }
    ensures sound { OnOk result (IsSoundScope book.new.scope) }
{
    let kind = QuantityKind::Free;
    let class = QuantityClass::Free;
    match free_quantity(alloc, names, indication, expr, book) {
        Ok(part) => declare_quantities(alloc, names, kind, class, place, declared, &part, book),
        Err(error) => Err(error),
    }
}

fn subtype_declaration(
    alloc: Global,
    names: &Names,
    place: Place,
    name: Name,
    indication: &SubtypeIndication,
    book: &mut Book,
) -> Result<(), AllocError>
    requires { IsSoundScope book.old.scope }
    ensures ok { OnOk result (book.new ≡ spec.declaring_each spec.type_of_subtype place (name ∷ []) (subtype names.now book.old.scope indication.now book.old.notes) book.old) }
    ensures sound { OnOk result (IsSoundScope book.new.scope) }
{
    match subtype(alloc, names, &book.scope, indication, &mut book.notes) {
        Ok(part) => declare_types(alloc, names, place, &[name], &part, book),
        Err(error) => Err(error),
    }
}

/// The names of a list that may be left out.
fn names_of(list: &Option<Items<Name>>) -> &[Name]
    ensures { result.now ≡ spec.names_of list.now }
{
    match list {
        Some(list) => list.as_slice(),
        None => &[],
    }
}

/// Reads a declaration behind those that are read.
fn declaration(
    alloc: Global,
    names: &Names,
    declaration: &Declaration,
    book: &mut Book,
) -> Result<(), AllocError>
    requires { IsSoundScope book.old.scope }
    ensures ok { OnOk result (book.new ≡ spec.declaration names.now book.old declaration.now) }
    ensures sound { OnOk result (IsSoundScope book.new.scope) }
{
    match declaration {
        Declaration::Signal(place, list, indication, expr) => {
            let list = list.as_slice();
            let access = Access::Assignable;
            signals(alloc, names, access, *place, list, indication, expr, book)
        }
        Declaration::Constant(place, list, indication, expr) => {
            constants(
                alloc,
                names,
                *place,
                list.as_slice(),
                indication,
                expr,
                book,
            )
        }
        Declaration::Terminal(place, list, nature) => {
            terminals(alloc, names, *place, list.as_slice(), *nature, book)
        }
        Declaration::Quantity(place, list, indication, expr) => {
            free_quantities(
                alloc,
                names,
                *place,
                list.as_slice(),
                indication,
                expr,
                book,
            )
        }
        Declaration::Across(place, across, through, plus, minus) => {
            let (across, through) = (across.as_slice(), names_of(through));
            branch_quantities(alloc, names, *place, across, through, *plus, minus, book)
        }
        Declaration::Through(place, through, plus, minus) => {
            branch_quantities(
                alloc,
                names,
                *place,
                &[],
                through.as_slice(),
                *plus,
                minus,
                book,
            )
        }
        Declaration::Nature(place, name, across, through, reference) => {
            nature(*place, *name, *across, *through, *reference, book)
        }
        Declaration::Enumeration(place, name, literals) => {
            declare_enumeration(alloc, names, *place, *name, literals.as_slice(), book)
        }
        Declaration::Subtype(place, name, indication) => {
            subtype_declaration(alloc, names, *place, *name, indication, book)
        }
    }
}

/// Reads declarations in their order.
pub fn declarations(
    alloc: Global,
    names: &Names,
    all: &[Declaration],
    book: &mut Book,
) -> Result<(), AllocError>
    requires { IsSoundScope book.old.scope }
    ensures ok { OnOk result (book.new ≡ spec.declarations names.now all.now book.old) }
    ensures sound { OnOk result (IsSoundScope book.new.scope) }
{
    for one in all {
        declaration(alloc, names, one, book)?;
    }
    Ok(())
}
