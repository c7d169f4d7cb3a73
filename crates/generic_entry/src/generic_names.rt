//! A generic of an instance: its actual's value, or its default (IEEE 1076, 6.5.6.2 and 6.5.7.2).
ghost use Rattle.std.specs.Prelude.{◌≡◌, Bool, true, Some, None, IfSome, OnOk};
ghost use Rattle.elab_meaning.specs.Declarations as declarations;
ghost use Rattle.elab_meaning.specs.Subtypes as subtypes;
ghost use Rattle.unit_meaning.specs.Walk as spec;
ghost use Rattle.expr_types.specs.Known.{IsSoundScope, IsSoundThing};
ghost use Rattle.subtype_types.specs.Sound.{IsSoundValued};
ghost use Rattle.instance_matches.specs.Sound.{IsSoundActual, IsSoundAssigned, IsSoundGiven};
ghost use Rattle.generic_entry.specs.Entering.{Enters, is_in_range};

use crate::fitting::declare_fitting;
use ams_tree::Name;
use ams_value::Val;
use elab_meaning::{Book, Cause, Notes, Valued};
use expr_types::{note, same_kind};
use instance_counts::sum_of;
use instance_matches::Matches;
use name_scope::{Kind, SubtypeConstraint, Thing};
use std::alloc::AllocError;
use unit_meaning::{Actual, Assigned};

fn constant_of(valued: &Valued) -> Thing
    requires { IsSoundValued valued.now }
    ensures value { result ≡ declarations.constant_of valued.now }
    ensures sound { IsSoundThing result }
{
    match valued.subtype.kind {
        Kind::Of(_) => Thing::Constant(valued.subtype, valued.value),
        Kind::Vector => Thing::Constant(valued.subtype, None),
    }
}

fn holds(constraint: &SubtypeConstraint, value: &Val) -> bool
    ensures { result ≡ subtypes.holds constraint.now value.now }
{
    match constraint {
        SubtypeConstraint::Range(range) => range.holds(*value),
        SubtypeConstraint::Index(_) | SubtypeConstraint::Later => true,
    }
}

fn holds_known(constraint: &SubtypeConstraint, value: &Option<Val>) -> bool
    ensures { result ≡ subtypes.holds_known constraint.now value.now }
{
    match value {
        Some(value) => holds(constraint, value),
        None => true,
    }
}

fn has_kind(valued: &Valued, actual: &Actual) -> bool
    ensures { result ≡ spec.kind_suits (Some valued.now) actual.now }
{
    match actual {
        Actual::Value(kind, _) => same_kind(valued.subtype.kind, *kind),
        Actual::Open | Actual::Object(_, _) => false,
    }
}

fn is_value(actual: &Actual) -> bool
    ensures { result ≡ spec.kind_suits None actual.now }
{
    match actual {
        Actual::Value(_, _) => true,
        Actual::Open | Actual::Object(_, _) => false,
    }
}

/// Whether an actual is a value of the generic's type.
fn suits(valued: &Option<Valued>, actual: &Actual) -> bool
    ensures { result ≡ spec.kind_suits valued.now actual.now }
{
    match valued {
        Some(valued) => has_kind(valued, actual),
        None => is_value(actual),
    }
}

fn has_value(valued: &Valued, actual: &Actual) -> bool
    ensures { result ≡ is_in_range (Some valued.now) actual.now }
{
    match actual {
        Actual::Value(_, value) => holds_known(&valued.subtype.constraint, value),
        Actual::Open | Actual::Object(_, _) => true,
    }
}

fn is_in_range(valued: &Option<Valued>, actual: &Actual) -> bool
    ensures { result ≡ is_in_range valued.now actual.now }
{
    match valued {
        Some(valued) => has_value(valued, actual),
        None => true,
    }
}

/// Notes an actual that doesn't belong to the generic's subtype.
#[tactic(auto, using(crate::proofs::Ranges::noted_is))]
fn note_range(
    valued: &Option<Valued>,
    assigned: &Assigned,
    notes: &mut Notes,
) -> Result<(), AllocError>
    ensures { OnOk result (notes.new ≡ spec.range_notes valued.now assigned.now notes.old) }
{
    if is_in_range(valued, &assigned.actual) {
        Ok(())
    } else {
        note(notes, assigned.place, Cause::WrongType)
    }
}

#[tactic(auto, using(crate::proofs::Values::given_sound))]
fn constant_given(valued: &Valued, actual: &Actual) -> Thing
    requires suits { spec.kind_suits (Some valued.now) actual.now ≡ true }
    requires sound { IsSoundActual actual.now }
    ensures value { result ≡ spec.actual_value (Some valued.now) actual.now }
    ensures sound { IsSoundThing result }
{
    match actual {
        Actual::Value(_, value) => constant_of(&Valued {
            subtype: valued.subtype,
            value: *value,
        }),
        Actual::Open | Actual::Object(_, _) => Thing::Faulty,
    }
}

/// The constant that a generic with a suitable actual is.
fn given_thing(valued: &Option<Valued>, actual: &Actual) -> Thing
    requires suits { spec.kind_suits valued.now actual.now ≡ true }
    requires sound { IsSoundActual actual.now }
    ensures value { result ≡ spec.actual_value valued.now actual.now }
    ensures sound { IsSoundThing result }
{
    match valued {
        Some(valued) => constant_given(valued, actual),
        None => Thing::Faulty,
    }
}

fn enter_actual(
    valued: &Option<Valued>,
    assigned: &Assigned,
    name: Name,
    book: &mut Book,
) -> Result<bool, AllocError>
    requires scope { IsSoundScope book.old.scope }
    requires sound { IsSoundAssigned assigned.now }
    ensures entered { (has_default : Bool) → Enters (spec.generic_entered valued.now has_default (Some assigned.now) name book.old) result book.new }
    ensures sound { OnOk result (IsSoundScope book.new.scope) }
{
    if !suits(valued, &assigned.actual) {
        return Ok(false);
    }
    note_range(valued, assigned, &mut book.notes)?;
    declare_fitting(name, given_thing(valued, &assigned.actual), book)
}

fn default_thing(valued: &Option<Valued>) -> Thing
    requires { IfSome valued.now IsSoundValued }
    ensures value { result ≡ spec.default_thing valued.now }
    ensures sound { IsSoundThing result }
{
    match valued {
        Some(valued) => constant_of(valued),
        None => Thing::Faulty,
    }
}

fn enter_default(
    valued: &Option<Valued>,
    has_default: bool,
    name: Name,
    book: &mut Book,
) -> Result<bool, AllocError>
    requires scope { IsSoundScope book.old.scope }
    requires sound { IfSome valued.now IsSoundValued }
    ensures entered { Enters (spec.generic_entered valued.now has_default None name book.old) result book.new }
    ensures sound { OnOk result (IsSoundScope book.new.scope) }
{
    if has_default {
        declare_fitting(name, default_thing(valued), book)
    } else {
        Ok(false)
    }
}

/// Enters the generic at a place of the interface.
fn enter_generic(
    given: &Matches<'_>,
    place: u32,
    valued: &Option<Valued>,
    has_default: bool,
    name: Name,
    book: &mut Book,
) -> Result<bool, AllocError>
    requires scope { IsSoundScope book.old.scope }
    requires valued { IfSome valued.now IsSoundValued }
    requires given { IsSoundGiven given.now }
    ensures entered { Enters (spec.generic_entered valued.now has_default (spec.actual_at given.now place) name book.old) result book.new }
    ensures sound { OnOk result (IsSoundScope book.new.scope) }
{
    match given.actual_at(place) {
        Some(assigned) => enter_actual(valued, &assigned, name, book),
        None => enter_default(valued, has_default, name, book),
    }
}

/// Enters the names of a declaration of generics, the first of which has this place in the interface.
pub fn enter_generic_names(
    given: &Matches<'_>,
    first: u32,
    valued: &Option<Valued>,
    has_default: bool,
    declared: &[Name],
    book: &mut Book,
) -> Result<bool, AllocError>
    requires scope { IsSoundScope book.old.scope }
    requires valued { IfSome valued.now IsSoundValued }
    requires given { IsSoundGiven given.now }
    ensures entered { Enters (spec.generic_names given.now valued.now has_default first declared.now book.old) result book.new }
    ensures sound { OnOk result (IsSoundScope book.new.scope) }
{
    let mut place = first;
    for name in declared {
        if !enter_generic(given, place, valued, has_default, *name, book)? {
            return Ok(false);
        }
        place = sum_of(place, 1)?;
    }
    Ok(true)
}
