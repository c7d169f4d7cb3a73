//! Expressions as they are written.
ghost use Rattle.std.specs.Prelude.{◌≡◌, [], Some, map, IfOk, IfSome};
ghost use Rattle.std.specs.Option.{option_map};
ghost use Rattle.elab_meaning.specs.Expressions as spec;
ghost use Rattle.elab_meaning.specs.Names.{above_at};
ghost use Rattle.elab_meaning.specs.Notes.{changing};
ghost use Rattle.expr_types.specs.Known.{Finds, IsKind, IsSound, IsSoundAsked, IsSoundScope, OnKnown};

use crate::attribute::{above_at, dot_at, event_in, ramp_at, reference_at};
use crate::element::call_at;
use crate::literal::{literal_at, number_at};
use crate::names::{missing, named};
use crate::noting::{note, note_changing};
use crate::operator::{binary_at, parenthesized, unary_at};
use ams_token::{Names, Place};
use ams_tree::{Attribute, Expr, Name};
use elab_meaning::{Asked, Cause, Context, Notes, StaticValue, Typed};
use held_value::Held;
use name_scope::{Kind, Scope, Thing};
use sqlite_items::{Boxed, Items};
use std::alloc::{AllocError, Global};

fn asked_value(
    place: Place,
    kind: Kind,
    value: &StaticValue,
    notes: &mut Notes,
) -> Result<Option<Asked>, AllocError>
    requires { OnKnown (IsKind kind) value.now }
    ensures found { Finds (spec.asked_value place kind value.now notes.old) result notes.new }
    ensures sound { IfOk result (λ a. IfSome a IsSoundAsked) }
{
    match value {
        StaticValue::Known(value) => Ok(Some(Asked {
            kind,
            value: Some(*value),
        })),
        StaticValue::Faulty => {
            note(notes, place, Cause::WrongType)?;
            Ok(None)
        }
        StaticValue::Later | StaticValue::Changing => Ok(Some(Asked { kind, value: None })),
    }
}

/// The value that is asked of an expression before the run.
pub fn asked(found: &Option<Typed>, notes: &mut Notes) -> Result<Option<Asked>, AllocError>
    requires { IfSome found.now IsSound }
    ensures found { Finds (spec.asked found.now notes.old) result notes.new }
    ensures sound { IfOk result (λ a. IfSome a IsSoundAsked) }
{
    match found {
        None => Ok(None),
        Some(typed) => asked_value(typed.place, typed.kind, &typed.value, notes),
    }
}

fn static_in(context: Context) -> Context
    ensures { result ≡ spec.static_in context }
{
    Context {
        surrounding: context.surrounding,
        is_static: true,
    }
}

/// Whether an expression whose value is asked keeps the rules.
fn is_fine(found: &Option<Typed>, notes: &mut Notes) -> Result<bool, AllocError>
    requires { IfSome found.now IsSound }
    ensures { Finds (spec.is_fine found.now notes.old) result notes.new }
{
    match asked(found, notes) {
        Ok(value) => Ok(value.is_some()),
        Err(error) => Err(error),
    }
}

/// `name'above(level)`, behind its level.
fn above_found(
    context: Context,
    name: Name,
    thing: &Option<Thing>,
    found: &Option<Typed>,
    notes: &mut Notes,
) -> Result<Option<Typed>, AllocError>
    requires { IfSome found.now IsSound }
    ensures found { Finds (spec.above_found context name thing.now found.now notes.old) result notes.new }
    ensures sound { IfOk result (λ t. IfSome t IsSound) }
{
    match asked(found, notes) {
        Ok(level) => above_noted(context, name, thing, &level, notes),
        Err(error) => Err(error),
    }
}

fn above_noted(
    context: Context,
    name: Name,
    thing: &Option<Thing>,
    level: &Option<Asked>,
    notes: &mut Notes,
) -> Result<Option<Typed>, AllocError>
    ensures found { Finds (above_at name thing.now level.now (changing context name.place notes.old)) result notes.new }
    ensures sound { IfOk result (λ t. IfSome t IsSound) }
{
    note_changing(context, name.place, notes)?;
    above_at(name, thing, level, notes)
}

/// A time of a ramp, and whether it keeps the rules.
#[cycle(read)]
fn time_of(
    alloc: Global,
    names: &Names,
    scope: &Scope,
    context: Context,
    expr: &Option<Boxed<Expr>>,
    notes: &mut Notes,
) -> Result<bool, AllocError>
    requires { IsSoundScope scope.now }
    ensures { Finds (spec.time_of context (option_map (spec.expression names.now scope.now) expr.now) notes.old) result notes.new }
{
    match expr {
        None => Ok(true),
        Some(expr) => {
            let found = expression(alloc, names, scope, static_in(context), expr.get(), notes)?;
            let fine = is_fine(&found, notes);
            drop(found);
            fine
        }
    }
}

#[cycle(read)]
fn attribute(
    alloc: Global,
    names: &Names,
    scope: &Scope,
    context: Context,
    name: Name,
    attribute: &Attribute,
    notes: &mut Notes,
) -> Result<Option<Typed>, AllocError>
    requires { IsSoundScope scope.now }
    ensures found { Finds (spec.attribute names.now scope.now attribute.now name context notes.old) result notes.new }
    ensures sound { IfOk result (λ t. IfSome t IsSound) }
{
    match attribute {
        Attribute::Event => event_in(context, name, &scope.find(name.number), notes),
        Attribute::Dot => dot_at(context, name, &scope.find(name.number), notes),
        Attribute::Reference => reference_at(context, name, &scope.find(name.number), notes),
        Attribute::Above(level) => {
            let found = expression(alloc, names, scope, static_in(context), level.get(), notes)?;
            let answer = above_found(context, name, &scope.find(name.number), &found, notes);
            drop(found);
            answer
        }
        Attribute::Ramp(rise, fall) => {
            let rises = time_of(alloc, names, scope, context, rise, notes)?;
            let falls = time_of(alloc, names, scope, context, fall, notes)?;
            note_changing(context, name.place, notes)?;
            ramp_at(name, &scope.find(name.number), rises && falls, notes)
        }
    }
}

fn put(all: Option<Items<Typed>>, found: Option<Typed>) -> Result<Option<Items<Typed>>, AllocError>
    ensures { IfOk result (λ now. now ≡ spec.put all found) }
{
    let Some(mut all) = all else {
        drop(found);
        return Ok(None);
    };
    let Some(found) = found else {
        return Ok(None);
    };
    all.push(found)?;
    Ok(Some(all))
}

#[cycle(read)]
fn arguments(
    alloc: Global,
    names: &Names,
    scope: &Scope,
    context: Context,
    exprs: &[Expr],
    notes: &mut Notes,
) -> Result<Option<Items<Typed>>, AllocError>
    requires { IsSoundScope scope.now }
    ensures { Finds (spec.arguments context (Some []) (map (spec.expression names.now scope.now) exprs.now) notes.old) result notes.new }
{
    let mut all = Some(Items::new(alloc));
    for expr in exprs {
        let found = expression(alloc, names, scope, context, expr, notes)?;
        all = put(all, found)?;
    }
    Ok(all)
}

/// Reads an expression in this scope: notes the rules that it breaks, and answers it with numbers for its names
/// where it breaks none.
#[cycle(read)]
pub fn expression(
    alloc: Global,
    names: &Names,
    scope: &Scope,
    context: Context,
    expr: &Expr,
    notes: &mut Notes,
) -> Result<Option<Typed>, AllocError>
    requires { IsSoundScope scope.now }
    ensures found { Finds (spec.expression names.now scope.now expr.now context notes.old) result notes.new }
    ensures sound { IfOk result (λ t. IfSome t IsSound) }
{
    match expr {
        Expr::Number(number, unit) => number_at(names, scope, number, unit, notes),
        Expr::Literal(literal) => literal_at(names, literal, notes),
        Expr::Name(name) => named(context, *name, &scope.find(name.number), notes),
        Expr::Call(name, exprs) => {
            let thing = scope.find(name.number);
            missing(*name, &thing, notes)?;
            let all = arguments(alloc, names, scope, context, exprs.as_slice(), notes)?;
            call_at(alloc, context, *name, &thing, all, notes)
        }
        Expr::Attribute(name, behind) => {
            attribute(alloc, names, scope, context, *name, behind, notes)
        }
        Expr::Paren(place, inner) => {
            let inner = expression(alloc, names, scope, context, inner.get(), notes)?;
            Ok(parenthesized(*place, inner))
        }
        Expr::Unary(op, place, operand) => {
            let operand = expression(alloc, names, scope, context, operand.get(), notes)?;
            unary_at(alloc, *op, *place, operand, notes)
        }
        Expr::Binary(op, left, right) => {
            let left = Held::new(expression(alloc, names, scope, context, left.get(), notes)?);
            let right = expression(alloc, names, scope, context, right.get(), notes)?;
            binary_at(alloc, *op, left.into_inner(), right, notes)
        }
    }
}

/// Reads an expression whose value is asked before the run.
pub fn static_value(
    alloc: Global,
    names: &Names,
    scope: &Scope,
    context: Context,
    expr: &Expr,
    notes: &mut Notes,
) -> Result<Option<Asked>, AllocError>
    requires { IsSoundScope scope.now }
    ensures found { Finds (spec.static names.now scope.now expr.now context notes.old) result notes.new }
    ensures sound { IfOk result (λ a. IfSome a IsSoundAsked) }
{
    let found = expression(alloc, names, scope, static_in(context), expr, notes)?;
    let answer = asked(&found, notes);
    drop(found);
    answer
}
