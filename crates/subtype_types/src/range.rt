//! Ranges of values (IEEE 1076, 6.3).
ghost use Rattle.std.specs.Prelude.{◌≡◌, Some};
ghost use Rattle.elab_meaning.specs.Parts.{both};
ghost use Rattle.elab_meaning.specs.Subtypes as spec;
ghost use Rattle.expr_types.specs.Known.{Finds, IsSoundScope};

use crate::constraint::holds;
use crate::part::static_part;
use ams_token::Names;
use ams_tree::{Bounds, Expr};
use ams_value::{Val, ValueType};
use elab_meaning::{Asked, Notes, Part};
use expr_types::same_kind;
use flat_expr::Constraint;
use name_scope::{Kind, Scope, Subtype, SubtypeConstraint};
use std::alloc::{AllocError, Global};

fn is_ranged(kind: Kind) -> bool
    ensures { result ≡ spec.is_ranged kind }
{
    matches!(kind, Kind::Of(ValueType::Integer | ValueType::Real))
}

fn ranged(
    subtype: &Subtype,
    is_empty: bool,
    low: &Val,
    high: &Val,
    range: &Constraint,
) -> Part<Subtype>
    ensures { result ≡ spec.ranged subtype.now is_empty low.now high.now range.now }
{
    if is_empty || holds(&subtype.constraint, low) && holds(&subtype.constraint, high) {
        Part::Kept(Subtype {
            kind: subtype.kind,
            constraint: SubtypeConstraint::Range(*range),
        })
    } else {
        Part::Wrong
    }
}

fn range_of(subtype: &Subtype, low: &Option<Val>, high: &Option<Val>) -> Part<Subtype>
    ensures { result ≡ spec.range_of subtype.now low.now high.now }
{
    match (low, high) {
        (Some(Val::Int(a)), Some(Val::Int(b))) => {
            let (low, high) = (Val::Int(*a), Val::Int(*b));
            ranged(subtype, *b < *a, &low, &high, &Constraint::Integer(*a, *b))
        }
        (Some(Val::Real(a)), Some(Val::Real(b))) => {
            let (low, high) = (Val::Real(*a), Val::Real(*b));
            let is_empty = b.units() < a.units();
            ranged(subtype, is_empty, &low, &high, &Constraint::Real(*a, *b))
        }
        _ => Part::Kept(Subtype {
            kind: subtype.kind,
            constraint: SubtypeConstraint::Later,
        }),
    }
}

fn narrowed(subtype: &Subtype, low: &Asked, high: &Asked) -> Part<Subtype>
    ensures { result ≡ spec.narrowed subtype.now low.now high.now }
{
    let kind = subtype.kind;
    if is_ranged(kind) && same_kind(low.kind, kind) && same_kind(high.kind, kind) {
        range_of(subtype, &low.value, &high.value)
    } else {
        Part::Wrong
    }
}

fn narrowed_between(subtype: &Subtype, low: &Part<Asked>, high: &Part<Asked>) -> Part<Subtype>
    ensures { result ≡ both (spec.narrowed subtype.now) low.now high.now }
{
    match (low, high) {
        (Part::Kept(low), Part::Kept(high)) => narrowed(subtype, low, high),
        (Part::Hidden, _) | (_, Part::Hidden) => Part::Hidden,
        _ => Part::Wrong,
    }
}

/// What is wrong already, beside two bounds.
fn wrong_beside(low: &Part<Asked>, high: &Part<Asked>) -> Part<Subtype>
    ensures { result ≡ both spec.wrong_beside low.now high.now }
{
    match (low, high) {
        (Part::Hidden, _) | (_, Part::Hidden) => Part::Hidden,
        _ => Part::Wrong,
    }
}

fn narrowed_by(part: &Part<Subtype>, low: &Part<Asked>, high: &Part<Asked>) -> Part<Subtype>
    ensures { result ≡ spec.narrowed_by part.now low.now high.now }
{
    match part {
        Part::Kept(subtype) => narrowed_between(subtype, low, high),
        Part::Wrong => wrong_beside(low, high),
        Part::Hidden => Part::Hidden,
    }
}

/// Reads the upper bound, behind the lower one.
fn upper_bound(
    alloc: Global,
    names: &Names,
    scope: &Scope,
    upper: &Expr,
    part: &Part<Subtype>,
    low: &Part<Asked>,
    notes: &mut Notes,
) -> Result<Part<Subtype>, AllocError>
    requires { IsSoundScope scope.now }
    ensures { let high = spec.static_part names.now scope.now upper.now notes.old in Finds (high.0, spec.narrowed_by part.now low.now high.1) result notes.new }
{
    match static_part(alloc, names, scope, upper, notes) {
        Ok(high) => Ok(narrowed_by(part, low, &high)),
        Err(error) => Err(error),
    }
}

fn between(
    alloc: Global,
    names: &Names,
    scope: &Scope,
    bounds: &Bounds,
    part: &Part<Subtype>,
    notes: &mut Notes,
) -> Result<Part<Subtype>, AllocError>
    requires { IsSoundScope scope.now }
    ensures { Finds (spec.in_bounds names.now scope.now (Some bounds.now) part.now notes.old) result notes.new }
{
    match static_part(alloc, names, scope, &bounds.low, notes) {
        Ok(low) => upper_bound(alloc, names, scope, &bounds.high, part, &low, notes),
        Err(error) => Err(error),
    }
}

/// Reads the range of values, where it is written: the part of the subtype in it.
pub fn in_bounds(
    alloc: Global,
    names: &Names,
    scope: &Scope,
    bounds: &Option<Bounds>,
    part: Part<Subtype>,
    notes: &mut Notes,
) -> Result<Part<Subtype>, AllocError>
    requires { IsSoundScope scope.now }
    ensures { Finds (spec.in_bounds names.now scope.now bounds.now part notes.old) result notes.new }
{
    match bounds {
        Some(bounds) => between(alloc, names, scope, bounds, &part, notes),
        None => Ok(part),
    }
}
