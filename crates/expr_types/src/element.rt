//! Names before arguments: functions, conversions and elements of vectors.
ghost use Rattle.std.specs.Prelude.{◌≡◌, ◌≤◌, pos, Some, IfOk, IfSome};
ghost use Rattle.ams_value.specs.Types.{IsValue};
ghost use Rattle.flat_expr.specs.declared.expr.FlatExpr.TheVariants as e;
ghost use Rattle.flat_expr.specs.Expr.{kind_of_call};
ghost use Rattle.name_scope.specs.declared.thing.Kind.TheVariants.{Of};
ghost use Rattle.ams_value.specs.declared.value_type.ValueType.TheVariants.{Bit};
ghost use Rattle.elab_meaning.specs.Names as spec;
ghost use Rattle.elab_meaning.specs.Kinds.{is_vector};
ghost use Rattle.elab_meaning.specs.Values as values;
ghost use Rattle.expr_types.specs.Known.{Finds, IsKind, IsOf, IsSound, IsSoundThing, OnKnown};

use crate::kinds::{is_vector, same_kind};
use crate::names::thing_named;
use crate::noting::wrong;
use crate::value::{call_value, open_value};
use ams_token::Place;
use ams_tree::Name;
use ams_value::{Val, ValueType};
use elab_meaning::{Context, Notes, StaticValue, Typed};
use flat_expr::{Direction, FlatExpr, Function, IndexRange};
use held_value::Held;
use name_scope::{Kind, Subtype, SubtypeConstraint, Thing};
use sqlite_items::Items;
use std::alloc::{AllocError, Global};

fn of_real(function: Function, kind: Kind) -> Option<Function>
    ensures { result ≡ spec.of_real function kind }
{
    match kind {
        Kind::Of(ValueType::Real) => Some(function),
        _ => None,
    }
}

fn conversion(function: Function, kind: Kind) -> Option<Function>
    ensures { result ≡ spec.conversion function kind }
{
    match (function, kind) {
        (Function::Real, Kind::Of(ValueType::Integer)) => Some(Function::Real),
        (Function::Integer, Kind::Of(ValueType::Real)) => Some(Function::Integer),
        _ => None,
    }
}

fn function_at(thing: &Thing, kind: Kind) -> Option<Function>
    ensures { result ≡ spec.function_at thing.now kind }
{
    match thing {
        Thing::Function(function) => of_real(*function, kind),
        Thing::Type(_, Some(function)) => conversion(*function, kind),
        _ => None,
    }
}

fn kind_of_call(function: Function) -> ValueType
    ensures { result ≡ kind_of_call function }
{
    match function {
        Function::Integer => ValueType::Integer,
        _ => ValueType::Real,
    }
}

fn called(
    alloc: Global,
    place: Place,
    argument: Typed,
    function: Function,
) -> Result<Typed, AllocError>
    ensures made { IfOk result (λ t. t ≡ record { place = place; kind = Of (kind_of_call function); expr = e.Call function argument.expr; value = values.call_value function argument.value }) }
    ensures sound { IfOk result IsSound }
{
    let value = call_value(function, argument.value);
    Ok(Typed {
        place,
        kind: Kind::Of(kind_of_call(function)),
        expr: FlatExpr::call(alloc, function, argument.expr)?,
        value,
    })
}

/// How many places an index stands behind the leftmost element.
fn places_by(range: IndexRange, index: i32) -> i64
    ensures { result ≡ values.places_by range.direction (pos range.left) index }
{
    match range.direction {
        Direction::To => i64::from(index) - i64::from(range.left),
        Direction::Downto => i64::from(range.left) - i64::from(index),
    }
}

/// The element so many places behind the leftmost one.
fn bit_of(length: u8, content: u64, place: i64) -> StaticValue
    requires { length ≤ 64 }
    ensures value { result ≡ values.bit_of length content place }
    ensures sound { OnKnown (IsOf Bit) result }
{
    if place < 0 {
        return StaticValue::Faulty;
    }
    if place < i64::from(length) {
        let behind = u64::from(length) - 1 - place.unsigned_abs();
        return StaticValue::Known(Val::Bit((content >> behind) % 2 == 1));
    }
    StaticValue::Faulty
}

fn element_of(range: IndexRange, vector: &Val, index: &StaticValue) -> StaticValue
    requires { IsValue vector.now }
    ensures value { result ≡ values.element_of range vector.now index.now }
    ensures sound { OnKnown (IsOf Bit) result }
{
    match (vector, index) {
        (Val::Bits(length, content), StaticValue::Known(Val::Int(index))) => {
            bit_of(*length, *content, places_by(range, *index))
        }
        _ => StaticValue::Faulty,
    }
}

fn ranged_element(range: IndexRange, vector: &StaticValue, index: &StaticValue) -> StaticValue
    requires { OnKnown IsValue vector.now }
    ensures value { result ≡ values.together (values.element_of range) vector.now index.now }
    ensures sound { OnKnown (IsOf Bit) result }
{
    match (vector, index) {
        (StaticValue::Changing, _) | (_, StaticValue::Changing) => StaticValue::Changing,
        (StaticValue::Later, _) | (_, StaticValue::Later) => StaticValue::Later,
        (StaticValue::Faulty, _) => StaticValue::Faulty,
        (StaticValue::Known(vector), _) => element_of(range, vector, index),
    }
}

#[tactic(auto, using(crate::proofs::Sound::open_sound))]
fn element_value(
    constraint: &SubtypeConstraint,
    vector: &StaticValue,
    index: &StaticValue,
) -> StaticValue
    requires { OnKnown IsValue vector.now }
    ensures value { result ≡ values.element_value constraint.now vector.now index.now }
    ensures sound { OnKnown (IsOf Bit) result }
{
    match constraint {
        SubtypeConstraint::Index(range) => ranged_element(*range, vector, index),
        _ => open_value(vector, index),
    }
}

fn index_range(constraint: &SubtypeConstraint) -> IndexRange
    ensures { result ≡ spec.index_range constraint.now }
{
    match constraint {
        SubtypeConstraint::Index(range) => *range,
        _ => IndexRange {
            left: 0,
            direction: Direction::To,
        },
    }
}

/// The vector that a name stands for.
fn vector_at(thing: &Thing) -> Option<Subtype>
    ensures { result ≡ spec.vector_at thing.now }
{
    match thing {
        Thing::Constant(subtype, _) | Thing::Signal(_, subtype, _) | Thing::Variable(_, subtype) =>
            Some(*subtype),
        _ => None,
    }
}

#[tactic(auto, using(crate::proofs::Sound::known_value))]
fn element(
    alloc: Global,
    place: Place,
    subtype: &Subtype,
    vector: Typed,
    index: Typed,
) -> Result<Typed, AllocError>
    requires { IsSound vector }
    ensures made { IfOk result (λ t. t ≡ record { place = place; kind = Of Bit; expr = e.Index vector.expr index.expr (spec.index_range subtype.now.constraint); value = values.element_value subtype.now.constraint vector.value index.value }) }
    ensures sound { IfOk result IsSound }
{
    let value = element_value(&subtype.constraint, &vector.value, &index.value);
    Ok(Typed {
        place,
        kind: Kind::Of(ValueType::Bit),
        expr: FlatExpr::index(
            alloc,
            vector.expr,
            index.expr,
            index_range(&subtype.constraint),
        )?,
        value,
    })
}

fn element_of_name(
    alloc: Global,
    context: Context,
    name: Name,
    thing: &Thing,
    subtype: &Subtype,
    index: Typed,
    notes: &mut Notes,
) -> Result<Option<Typed>, AllocError>
    requires { IsSoundThing thing.now }
    ensures found { Finds (spec.element_of_name context name subtype.now index thing.now notes.old) result notes.new }
    ensures sound { IfOk result (λ t. IfSome t IsSound) }
{
    let index = Held::new(index);
    match thing_named(context, name, thing, notes)? {
        Some(vector) => {
            let index = index.into_inner();
            Ok(Some(element(alloc, name.place, subtype, vector, index)?))
        }
        None => Ok(None),
    }
}

/// A name before one index.
fn indexed(
    alloc: Global,
    context: Context,
    name: Name,
    thing: &Thing,
    index: Typed,
    notes: &mut Notes,
) -> Result<Option<Typed>, AllocError>
    requires { IsSoundThing thing.now }
    ensures found { Finds (spec.indexed context name thing.now (spec.vector_at thing.now) index notes.old) result notes.new }
    ensures sound { IfOk result (λ t. IfSome t IsSound) }
{
    match vector_at(thing) {
        Some(subtype) => {
            if is_vector(subtype.kind) && same_kind(index.kind, Kind::Of(ValueType::Integer)) {
                element_of_name(alloc, context, name, thing, &subtype, index, notes)
            } else {
                drop(index);
                wrong(notes, name.place)
            }
        }
        None => {
            drop(index);
            wrong(notes, name.place)
        }
    }
}

/// A name before one argument.
fn applied(
    alloc: Global,
    context: Context,
    name: Name,
    thing: &Thing,
    argument: Typed,
    notes: &mut Notes,
) -> Result<Option<Typed>, AllocError>
    requires { IsSoundThing thing.now }
    ensures found { Finds (spec.applied context name thing.now (spec.function_at thing.now argument.kind) argument notes.old) result notes.new }
    ensures sound { IfOk result (λ t. IfSome t IsSound) }
{
    match function_at(thing, argument.kind) {
        Some(function) => Ok(Some(called(alloc, name.place, argument, function)?)),
        None => indexed(alloc, context, name, thing, argument, notes),
    }
}

fn call_with(
    alloc: Global,
    context: Context,
    name: Name,
    thing: &Thing,
    arguments: Items<Typed>,
    notes: &mut Notes,
) -> Result<Option<Typed>, AllocError>
    requires { IsSoundThing thing.now }
    ensures found { Finds (spec.call_with context name thing.now arguments notes.old) result notes.new }
    ensures sound { IfOk result (λ t. IfSome t IsSound) }
{
    let mut arguments = arguments;
    if arguments.len() != 1 {
        return wrong(notes, name.place);
    }
    match arguments.pop() {
        Some(argument) => applied(alloc, context, name, thing, argument, notes),
        None => wrong(notes, name.place),
    }
}

/// A name before arguments, of which some may break a rule.
pub fn call_at(
    alloc: Global,
    context: Context,
    name: Name,
    thing: &Option<Thing>,
    arguments: Option<Items<Typed>>,
    notes: &mut Notes,
) -> Result<Option<Typed>, AllocError>
    requires { IfSome thing.now IsSoundThing }
    ensures found { Finds (spec.call_at context name thing.now arguments notes.old) result notes.new }
    ensures sound { IfOk result (λ t. IfSome t IsSound) }
{
    let Some(thing) = thing else {
        return Ok(None);
    };
    if let Thing::Faulty = thing {
        return Ok(None);
    }
    let Some(arguments) = arguments else {
        return Ok(None);
    };
    call_with(alloc, context, name, thing, arguments, notes)
}
