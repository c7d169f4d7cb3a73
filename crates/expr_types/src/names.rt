//! Names that stand as expressions.
ghost use Rattle.std.specs.Prelude.{◌≡◌, Some, IfOk, IfSome, OnOk};
ghost use Rattle.elab_meaning.specs.declared.fault.Notes.{Notes};
ghost use Rattle.elab_meaning.specs.Names as spec;
ghost use Rattle.expr_types.specs.Known.{Finds, IsKind, IsSound, IsSoundThing};

use crate::kinds::value_type;
use crate::literal::literal;
use crate::noting::{note, note_changing, wrong};
use ams_token::Place;
use ams_tree::Name;
use ams_value::{Val, ValueType};
use elab_meaning::{Cause, Context, Notes, StaticValue, Surrounding, Typed};
use flat_expr::{FlatExpr, SignalName, Unknown};
use name_scope::{Kind, Thing};
use std::alloc::AllocError;

/// A name that has no declaration in its place.
pub fn unknown_name(notes: &mut Notes, name: Name) -> Result<Option<Typed>, AllocError>
    ensures found { Finds (spec.unknown_name name notes.old) result notes.new }
    ensures sound { IfOk result (λ t. IfSome t IsSound) }
{
    note(notes, name.place, Cause::Unknown(name.number))?;
    Ok(None)
}

/// What changes during the run.
pub fn read(
    context: Context,
    place: Place,
    kind: Kind,
    expr: FlatExpr,
    notes: &mut Notes,
) -> Result<Option<Typed>, AllocError>
    ensures found { Finds (spec.read context place kind expr notes.old) result notes.new }
    ensures sound { IfOk result (λ t. IfSome t IsSound) }
{
    note_changing(context, place, notes)?;
    Ok(Some(Typed {
        place,
        kind,
        expr,
        value: StaticValue::Changing,
    }))
}

fn now_at(context: Context, place: Place, notes: &mut Notes) -> Result<Option<Typed>, AllocError>
    ensures found { Finds (spec.now_at context context.surrounding place notes.old) result notes.new }
    ensures sound { IfOk result (λ t. IfSome t IsSound) }
{
    match context.surrounding {
        Surrounding::Equation | Surrounding::Condition => {
            read(
                context,
                place,
                Kind::Of(ValueType::Real),
                FlatExpr::NowReal,
                notes,
            )
        }
        Surrounding::Declaration | Surrounding::Process => {
            read(
                context,
                place,
                Kind::Of(ValueType::Time),
                FlatExpr::NowTime,
                notes,
            )
        }
    }
}

fn constant(place: Place, kind: Kind, value: &Option<Val>) -> Typed
    requires { IfSome value.now (IsKind kind) }
    ensures made { (n : Notes) → spec.constant place kind value.now n ≡ (n, Some result) }
    ensures sound { IsSound result }
{
    match value {
        Some(value) => Typed {
            place,
            kind,
            expr: FlatExpr::Literal(*value),
            value: StaticValue::Known(*value),
        },
        None => Typed {
            place,
            kind,
            expr: FlatExpr::Variable(0, value_type(kind)),
            value: StaticValue::Later,
        },
    }
}

/// A name that stands as an expression.
pub fn named(
    context: Context,
    name: Name,
    thing: &Option<Thing>,
    notes: &mut Notes,
) -> Result<Option<Typed>, AllocError>
    requires { IfSome thing.now IsSoundThing }
    ensures found { Finds (spec.named context name thing.now notes.old) result notes.new }
    ensures sound { IfOk result (λ t. IfSome t IsSound) }
{
    match thing {
        None => unknown_name(notes, name),
        Some(thing) => thing_named(context, name, thing, notes),
    }
}

/// A name of a declared thing.
pub fn thing_named(
    context: Context,
    name: Name,
    thing: &Thing,
    notes: &mut Notes,
) -> Result<Option<Typed>, AllocError>
    requires { IsSoundThing thing.now }
    ensures found { Finds (spec.named context name (Some thing.now) notes.old) result notes.new }
    ensures sound { IfOk result (λ t. IfSome t IsSound) }
{
    match thing {
        Thing::Constant(subtype, value) => Ok(Some(constant(name.place, subtype.kind, value))),
        Thing::Literal(value) => Ok(Some(literal(name.place, value))),
        Thing::Signal(number, subtype, _) => {
            let expr = FlatExpr::Signal(SignalName::Signal(*number), value_type(subtype.kind));
            read(context, name.place, subtype.kind, expr, notes)
        }
        Thing::Domain => {
            let kind = ValueType::Enumeration(0);
            let expr = FlatExpr::Signal(SignalName::Domain, kind);
            read(context, name.place, Kind::Of(kind), expr, notes)
        }
        Thing::Quantity(number, _) => {
            let expr = FlatExpr::Unknown(Unknown::Quantity(*number));
            read(context, name.place, Kind::Of(ValueType::Real), expr, notes)
        }
        Thing::Variable(number, subtype) => {
            let expr = FlatExpr::Variable(*number, value_type(subtype.kind));
            read(context, name.place, subtype.kind, expr, notes)
        }
        Thing::Parameter(number) => {
            let expr = FlatExpr::Variable(*number, ValueType::Integer);
            read(
                context,
                name.place,
                Kind::Of(ValueType::Integer),
                expr,
                notes,
            )
        }
        Thing::Now => now_at(context, name.place, notes),
        Thing::Faulty => Ok(None),
        Thing::Type(_, _)
        | Thing::BitVector
        | Thing::Terminal(_, _)
        | Thing::Nature(_)
        | Thing::Function(_)
        | Thing::Label => wrong(notes, name.place),
    }
}

/// Notes a name that is looked for, where it is none.
pub fn missing(name: Name, thing: &Option<Thing>, notes: &mut Notes) -> Result<(), AllocError>
    ensures { OnOk result (notes.new ≡ spec.missing name thing.now notes.old) }
{
    match thing {
        None => note(notes, name.place, Cause::Unknown(name.number)),
        Some(_) => Ok(()),
    }
}
