//! Values of declarations.
ghost use Rattle.std.specs.Prelude.{◌≡◌, Some, IfOk};
ghost use Rattle.elab_meaning.specs.Parts.{both, judged};
ghost use Rattle.elab_meaning.specs.Subtypes as spec;
ghost use Rattle.expr_types.specs.Known.{Finds, IsSoundAsked, IsSoundScope};
ghost use Rattle.subtype_types.specs.Sound.{IsSoundValued, OnKept};

use crate::constraint::{holds, suits};
use crate::first::leftmost;
use crate::indication::subtype;
use crate::part::static_part;
use ams_token::Names;
use ams_tree::{Expr, SubtypeIndication};
use elab_meaning::{Asked, Notes, Part, Valued};
use name_scope::{Scope, Subtype};
use std::alloc::{AllocError, Global};

#[tactic(auto, using(crate::proofs::Values::written_sound))]
fn written(subtype: &Subtype, value: &Asked) -> Part<Valued>
    requires { IsSoundAsked value.now }
    ensures value { result ≡ spec.written subtype.now value.now }
    ensures sound { OnKept IsSoundValued result }
{
    if suits(subtype, value) {
        Part::Kept(Valued {
            subtype: *subtype,
            value: value.value,
        })
    } else {
        Part::Wrong
    }
}

fn written_part(part: &Part<Subtype>, value: &Part<Asked>) -> Part<Valued>
    requires { OnKept IsSoundAsked value.now }
    ensures value { result ≡ both spec.written part.now value.now }
    ensures sound { OnKept IsSoundValued result }
{
    match (part, value) {
        (Part::Kept(subtype), Part::Kept(value)) => written(subtype, value),
        (Part::Hidden, _) | (_, Part::Hidden) => Part::Hidden,
        _ => Part::Wrong,
    }
}

fn default(subtype: &Subtype) -> Part<Valued>
    ensures { result ≡ spec.default subtype.now }
{
    let value = leftmost(subtype);
    if holds(&subtype.constraint, &value) {
        Part::Kept(Valued {
            subtype: *subtype,
            value: Some(value),
        })
    } else {
        Part::Wrong
    }
}

fn default_part(part: &Part<Subtype>) -> Part<Valued>
    ensures { result ≡ judged spec.default part.now }
{
    match part {
        Part::Kept(subtype) => default(subtype),
        Part::Wrong => Part::Wrong,
        Part::Hidden => Part::Hidden,
    }
}

/// Reads the value that is written behind a subtype.
fn written_value(
    alloc: Global,
    names: &Names,
    scope: &Scope,
    part: &Part<Subtype>,
    expr: &Expr,
    notes: &mut Notes,
) -> Result<Part<Valued>, AllocError>
    requires { IsSoundScope scope.now }
    ensures found { Finds (spec.initial names.now scope.now part.now (Some expr.now) notes.old) result notes.new }
    ensures sound { IfOk result (OnKept IsSoundValued) }
{
    match static_part(alloc, names, scope, expr, notes) {
        Ok(value) => Ok(written_part(part, &value)),
        Err(error) => Err(error),
    }
}

/// Reads the value that may be written behind a subtype; where it isn't, it is the leftmost one.
pub fn initial(
    alloc: Global,
    names: &Names,
    scope: &Scope,
    part: &Part<Subtype>,
    expr: &Option<Expr>,
    notes: &mut Notes,
) -> Result<Part<Valued>, AllocError>
    requires { IsSoundScope scope.now }
    ensures { Finds (spec.initial names.now scope.now part.now expr.now notes.old) result notes.new }
{
    match expr {
        Some(expr) => written_value(alloc, names, scope, part, expr, notes),
        None => Ok(default_part(part)),
    }
}

/// Reads a subtype and the value that may be written behind it.
pub fn valued(
    alloc: Global,
    names: &Names,
    scope: &Scope,
    indication: &SubtypeIndication,
    expr: &Option<Expr>,
    notes: &mut Notes,
) -> Result<Part<Valued>, AllocError>
    requires { IsSoundScope scope.now }
    ensures { Finds (spec.valued names.now scope.now indication.now expr.now notes.old) result notes.new }
{
    match subtype(alloc, names, scope, indication, notes) {
        Ok(part) => initial(alloc, names, scope, &part, expr, notes),
        Err(error) => Err(error),
    }
}

/// Reads a subtype and the value behind it.
pub fn written_valued(
    alloc: Global,
    names: &Names,
    scope: &Scope,
    indication: &SubtypeIndication,
    expr: &Expr,
    notes: &mut Notes,
) -> Result<Part<Valued>, AllocError>
    requires { IsSoundScope scope.now }
    ensures found { Finds (spec.valued names.now scope.now indication.now (Some expr.now) notes.old) result notes.new }
    ensures sound { IfOk result (OnKept IsSoundValued) }
{
    match subtype(alloc, names, scope, indication, notes) {
        Ok(part) => written_value(alloc, names, scope, &part, expr, notes),
        Err(error) => Err(error),
    }
}
