//! Targets of assignments.
ghost use Rattle.std.specs.Prelude.{◌≡◌};
ghost use Rattle.elab_meaning.specs.Declarations as declared;
ghost use Rattle.elab_meaning.specs.Subtypes as subtypes;
ghost use Rattle.unit_meaning.specs.Settings as parts;
ghost use Rattle.unit_meaning.specs.Waveforms as spec;
ghost use Rattle.expr_types.specs.Known.{Finds};

use crate::parts::found_thing;
use ams_tree::Name;
use ams_value::Val;
use elab_meaning::{Asked, Notes, Part, StaticValue, Typed};
use expr_types::same_kind;
use flat_expr::{Constraint, FlatExpr};
use name_scope::{Access, Scope, Subtype, SubtypeConstraint, Thing};
use std::alloc::AllocError;

fn known_of(value: &StaticValue) -> Option<Val>
    ensures { result ≡ parts.known_of value.now }
{
    match value {
        StaticValue::Known(value) => Some(*value),
        _ => None,
    }
}

/// The type of an expression, and its value where that is known though nobody asks.
pub fn value_of(typed: &Typed) -> Asked
    ensures { result ≡ parts.value_of typed.now }
{
    Asked {
        kind: typed.kind,
        value: known_of(&typed.value),
    }
}

fn holds(constraint: &SubtypeConstraint, value: &Val) -> bool
    ensures { result ≡ subtypes.holds constraint.now value.now }
{
    match constraint {
        SubtypeConstraint::Range(range) => range.holds(*value),
        _ => true,
    }
}

fn holds_known(constraint: &SubtypeConstraint, value: &Option<Val>) -> bool
    ensures { result ≡ subtypes.holds_known constraint.now value.now }
{
    match value {
        Some(value) => holds(constraint, value),
        None => true,
    }
}

/// Whether a value may be given to a name of the subtype, as far as both are known.
pub fn suits(subtype: &Subtype, value: &Asked) -> bool
    ensures { result ≡ subtypes.suits subtype.now value.now }
{
    same_kind(subtype.kind, value.kind) && holds_known(&subtype.constraint, &value.value)
}

/// The range of values of a subtype, where it has one.
pub fn range_part(constraint: &SubtypeConstraint) -> Constraint
    ensures { result ≡ declared.range_part constraint.now }
{
    match constraint {
        SubtypeConstraint::Range(range) => *range,
        _ => Constraint::Whole,
    }
}

fn target_of(thing: &Thing) -> Part<(u32, Subtype)>
    ensures { result ≡ spec.target_of thing.now }
{
    match thing {
        Thing::Signal(number, subtype, Access::Assignable) => Part::Kept((*number, *subtype)),
        _ => Part::Wrong,
    }
}

/// A signal that may be assigned: its number and its subtype.
pub fn target(
    scope: &Scope,
    name: Name,
    notes: &mut Notes,
) -> Result<Part<(u32, Subtype)>, AllocError>
    ensures { Finds (spec.target scope.now name notes.old) result notes.new }
{
    match found_thing(name, &scope.find(name.number), notes) {
        Ok(Part::Kept(thing)) => Ok(target_of(&thing)),
        Ok(Part::Wrong) => Ok(Part::Wrong),
        Ok(Part::Hidden) => Ok(Part::Hidden),
        Err(error) => Err(error),
    }
}

/// A value for a target, to whose subtype it belongs where both are known.
pub fn suited(to: &Part<(u32, Subtype)>, typed: Typed) -> Part<FlatExpr>
    ensures { result ≡ spec.suited to.now typed }
{
    if let Part::Kept((_, subtype)) = to {
        if !suits(subtype, &value_of(&typed)) {
            drop(typed);
            return Part::Wrong;
        }
    }
    Part::Kept(typed.expr)
}
