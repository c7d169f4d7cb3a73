//! Vectors, by the range of their index (IEEE 1076, 5.3.2.2).
ghost use Rattle.std.specs.Prelude.{◌≡◌, ◌<◌, IfOk, IfSome};
ghost use Rattle.elab_meaning.specs.Subtypes as spec;
ghost use Rattle.expr_types.specs.Known.{Finds, IsSoundScope};
ghost use Rattle.subtype_types.specs.Sound.{OnKept};

use crate::part::static_part;
use ams_token::Names;
use ams_tree::{Direction, Range};
use ams_value::{MOST_ELEMENTS, Val, ValueType};
use elab_meaning::{Asked, Notes, Part};
use expr_types::same_kind;
use flat_expr::{Direction as FlatDirection, IndexRange};
use name_scope::{Kind, Scope, Subtype, SubtypeConstraint};
use std::alloc::{AllocError, Global};

/// A bound, where it is known, from 0 to 63.
fn bound_value(value: &Option<Val>) -> Part<Option<u8>>
    ensures value { result ≡ spec.bound_value value.now }
    ensures bound { OnKept (λ bound. IfSome bound (λ i. i < 64)) result }
{
    match value {
        Some(Val::Int(i)) => {
            if 0 <= *i && *i < MOST_ELEMENTS as i32 {
                Part::Kept(Some(i.unsigned_abs() as u8))
            } else {
                Part::Wrong
            }
        }
        Some(_) => Part::Wrong,
        None => Part::Kept(None),
    }
}

fn index_bound(asked: &Asked) -> Part<Option<u8>>
    ensures value { result ≡ spec.index_bound asked.now }
    ensures bound { OnKept (λ bound. IfSome bound (λ i. i < 64)) result }
{
    if same_kind(asked.kind, Kind::Of(ValueType::Integer)) {
        bound_value(&asked.value)
    } else {
        Part::Wrong
    }
}

fn direction_of(direction: Direction) -> FlatDirection
    ensures { result ≡ spec.direction_of direction }
{
    match direction {
        Direction::To => FlatDirection::To,
        Direction::Downto => FlatDirection::Downto,
    }
}

fn length_of(left: u8, direction: Direction, right: u8) -> u8
    requires left { left < 64 }
    requires right { right < 64 }
    ensures { result ≡ spec.length_of left direction right }
{
    match direction {
        Direction::To => (right + 1).saturating_sub(left),
        Direction::Downto => (left + 1).saturating_sub(right),
    }
}

fn vector_of(direction: Direction, left: Option<u8>, right: Option<u8>) -> Subtype
    requires left { IfSome left (λ i. i < 64) }
    requires right { IfSome right (λ i. i < 64) }
    ensures { result ≡ spec.vector_of direction left right }
{
    match (left, right) {
        (Some(left), Some(right)) => Subtype {
            kind: Kind::Of(ValueType::BitVector(length_of(left, direction, right))),
            constraint: SubtypeConstraint::Index(IndexRange {
                left,
                direction: direction_of(direction),
            }),
        },
        _ => Subtype {
            kind: Kind::Vector,
            constraint: SubtypeConstraint::Later,
        },
    }
}

fn indexed(direction: Direction, left: &Asked, right: &Asked) -> Part<Option<Subtype>>
    ensures { result ≡ spec.indexed direction left.now right.now }
{
    let left = index_bound(left);
    let right = index_bound(right);
    match (&left, &right) {
        (Part::Kept(left), Part::Kept(right)) => {
            Part::Kept(Some(vector_of(direction, *left, *right)))
        }
        (Part::Hidden, _) | (_, Part::Hidden) => Part::Hidden,
        _ => Part::Wrong,
    }
}

fn ranged_index(
    direction: Direction,
    left: &Part<Asked>,
    right: &Part<Asked>,
) -> Part<Option<Subtype>>
    ensures { result ≡ spec.ranged_index direction left.now right.now }
{
    match (left, right) {
        (Part::Kept(left), Part::Kept(right)) => indexed(direction, left, right),
        (Part::Hidden, _) | (_, Part::Hidden) => Part::Hidden,
        _ => Part::Wrong,
    }
}

/// Reads the right bound, behind the left one.
fn right_bound(
    alloc: Global,
    names: &Names,
    scope: &Scope,
    range: &Range,
    left: &Part<Asked>,
    notes: &mut Notes,
) -> Result<Part<Option<Subtype>>, AllocError>
    requires { IsSoundScope scope.now }
    ensures { let right = spec.static_part names.now scope.now range.now.right notes.old in Finds (right.0, spec.ranged_index range.now.direction left.now right.1) result notes.new }
{
    match static_part(alloc, names, scope, &range.right, notes) {
        Ok(right) => Ok(ranged_index(range.direction, left, &right)),
        Err(error) => Err(error),
    }
}

/// Reads the range of an index, where it is written: the subtype of BIT_VECTOR with it.
pub fn index_subtype(
    alloc: Global,
    names: &Names,
    scope: &Scope,
    range: &Option<Range>,
    notes: &mut Notes,
) -> Result<Part<Option<Subtype>>, AllocError>
    requires { IsSoundScope scope.now }
    ensures { Finds (spec.index_subtype names.now scope.now range.now notes.old) result notes.new }
{
    let Some(range) = range else {
        return Ok(Part::Kept(None));
    };
    match static_part(alloc, names, scope, &range.left, notes) {
        Ok(left) => right_bound(alloc, names, scope, range, &left, notes),
        Err(error) => Err(error),
    }
}
