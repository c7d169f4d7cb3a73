//! Actuals of ports (IEEE 1076, 6.5.7.3; natures of terminals: IEEE 1076.1).
ghost use Rattle.std.specs.Prelude.{◌≡◌, OnOk};
ghost use Rattle.ams_tree.specs.declared.expression.Expr.{out-Expr};
ghost use Rattle.elab_meaning.specs.declared.part.Part.TheVariants.{Kept};
ghost use Rattle.unit_meaning.specs.Associations as spec;
ghost use Rattle.association_types.specs.Rules as rules;
ghost use Rattle.expr_types.specs.Known.{Finds, IsSoundScope};

use ams_token::{Names, Place};
use ams_tree::{Expr, Name};
use elab_meaning::{Cause, Notes, Part, Typed};
use expr_types::{expression, note};
use name_scope::{Scope, Thing};
use statement_parts::{RUNNING, found_thing};
use std::alloc::{AllocError, Global};
use unit_meaning::Actual;

/// The nature of a terminal port, which is one of those outside of all units.
fn nature_outside(start: &Scope, formal: &Option<Option<Name>>) -> Option<Thing>
    ensures { result ≡ spec.nature_outside start.now formal.now }
{
    match formal {
        Some(Some(nature)) => start.find(nature.number),
        Some(None) | None => None,
    }
}

/// Notes an actual that has another nature than its formal.
fn compare(
    place: Place,
    nature: &Option<Thing>,
    thing: &Thing,
    notes: &mut Notes,
) -> Result<(), AllocError>
    ensures { OnOk result (notes.new ≡ spec.compared place nature.now thing.now notes.old) }
{
    let Some(Thing::Nature(formal)) = nature else {
        return Ok(());
    };
    let Thing::Terminal(_, actual) = thing else {
        return Ok(());
    };
    if formal == actual {
        Ok(())
    } else {
        note(notes, place, Cause::NatureMismatch)
    }
}

fn object_actual(
    start: &Scope,
    formal: &Option<Option<Name>>,
    name: Name,
    thing: &Thing,
    notes: &mut Notes,
) -> Result<Actual, AllocError>
    ensures { Finds (spec.object_actual start.now formal.now name (Kept thing.now) notes.old) result notes.new }
{
    let nature = nature_outside(start, formal);
    compare(name.place, &nature, thing, notes)?;
    Ok(Actual::Object(name.number, *thing))
}

/// A name as an actual.
fn named_port(
    start: &Scope,
    scope: &Scope,
    formal: &Option<Option<Name>>,
    name: Name,
    notes: &mut Notes,
) -> Result<Actual, AllocError>
    ensures { Finds (rules.named_port start.now scope.now formal.now name notes.old) result notes.new }
{
    match found_thing(name, &scope.find(name.number), notes) {
        Ok(Part::Kept(thing)) => object_actual(start, formal, name, &thing, notes),
        Ok(Part::Wrong) => Ok(Actual::Open),
        Ok(Part::Hidden) => Ok(Actual::Open),
        Err(error) => Err(error),
    }
}

fn other_actual(found: &Option<Typed>) -> Actual
    ensures { result ≡ spec.other_actual found.now }
{
    match found {
        Some(typed) => Actual::Value(typed.kind, None),
        None => Actual::Open,
    }
}

/// Another expression, which no port takes.
fn other_port(
    alloc: Global,
    names: &Names,
    scope: &Scope,
    expr: &Expr,
    notes: &mut Notes,
) -> Result<Actual, AllocError>
    requires { IsSoundScope scope.now }
    ensures { Finds (rules.other_port names.now scope.now expr.now notes.old) result notes.new }
{
    let found = expression(alloc, names, scope, RUNNING, expr, notes)?;
    let actual = other_actual(&found);
    drop(found);
    Ok(actual)
}

/// Reads the actual of a port: a plain name, or another expression, which no port takes.
pub fn port_actual(
    alloc: Global,
    names: &Names,
    start: &Scope,
    scope: &Scope,
    formal: &Option<Option<Name>>,
    expr: &Expr,
    notes: &mut Notes,
) -> Result<Actual, AllocError>
    requires { IsSoundScope scope.now }
    ensures { Finds (spec.port_actual names.now start.now scope.now formal.now expr.now (out-Expr expr.now) notes.old) result notes.new }
{
    match expr {
        Expr::Name(name) => named_port(start, scope, formal, *name, notes),
        _ => other_port(alloc, names, scope, expr, notes),
    }
}
