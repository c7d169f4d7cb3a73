//! Actuals of generics (IEEE 1076, 6.5.7.2).
ghost use Rattle.std.specs.Prelude.{◌≡◌, IfOk};
ghost use Rattle.elab_meaning.specs.Parts.{judged};
ghost use Rattle.name_scope.specs.Scopes.{lookup};
ghost use Rattle.ams_tree.specs.declared.expression.Expr.{out-Expr};
ghost use Rattle.unit_meaning.specs.Associations as spec;
ghost use Rattle.unit_meaning.specs.Settings.{finished};
ghost use Rattle.expr_types.specs.Known.{Finds, IsSoundAsked, IsSoundScope};
ghost use Rattle.subtype_types.specs.Sound.{OnKept};
ghost use Rattle.instance_matches.specs.Sound.{IsSoundActual};

use ams_token::{Names, Place};
use ams_tree::{Expr, Name};
use elab_meaning::{Asked, Notes, Part};
use expr_types::same_kind;
use name_scope::{Scope, Subtype, Thing};
use statement_parts::suits;
use std::alloc::{AllocError, Global};
use subtype_types::{close, static_part};
use unit_meaning::Actual;

/// Whether a name stands for a thing that has no value.
fn has_no_value(thing: &Option<Thing>) -> bool
    ensures { result ≡ spec.has_no_value thing.now }
{
    matches!(
        thing,
        Some(
            Thing::Terminal(_, _)
                | Thing::Type(_, _)
                | Thing::BitVector
                | Thing::Nature(_)
                | Thing::Function(_)
        )
    )
}

/// The value belongs to the formal's subtype, where both are known.
fn formal_suits(formal: &Option<Option<Subtype>>, asked: &Asked) -> Part<Asked>
    requires { IsSoundAsked asked.now }
    ensures value { result ≡ spec.formal_suits formal.now asked.now }
    ensures sound { OnKept IsSoundAsked result }
{
    match formal {
        Some(Some(subtype)) => {
            if !same_kind(subtype.kind, asked.kind) {
                Part::Kept(*asked)
            } else if suits(subtype, asked) {
                Part::Kept(*asked)
            } else {
                Part::Wrong
            }
        }
        Some(None) | None => Part::Kept(*asked),
    }
}

fn suiting_part(formal: &Option<Option<Subtype>>, part: &Part<Asked>) -> Part<Asked>
    requires { OnKept IsSoundAsked part.now }
    ensures value { result ≡ judged (spec.formal_suits formal.now) part.now }
    ensures sound { OnKept IsSoundAsked result }
{
    match part {
        Part::Kept(asked) => formal_suits(formal, asked),
        Part::Wrong => Part::Wrong,
        Part::Hidden => Part::Hidden,
    }
}

fn value_of(part: &Part<Asked>) -> Actual
    requires { OnKept IsSoundAsked part.now }
    ensures value { result ≡ spec.value_of part.now }
    ensures sound { IsSoundActual result }
{
    match part {
        Part::Kept(asked) => Actual::Value(asked.kind, asked.value),
        Part::Wrong | Part::Hidden => Actual::Open,
    }
}

/// An actual whose value is read.
#[tactic(auto, using(crate::proofs::Values::sealed_value))]
fn value_found(
    place: Place,
    formal: &Option<Option<Subtype>>,
    part: &Part<Asked>,
    notes: &mut Notes,
) -> Result<Actual, AllocError>
    requires { OnKept IsSoundAsked part.now }
    ensures found { Finds (spec.value_actual (finished place (notes.old, judged (spec.formal_suits formal.now) part.now))) result notes.new }
    ensures sound { IfOk result IsSoundActual }
{
    let part = suiting_part(formal, part);
    close(place, &part, notes)?;
    Ok(value_of(&part))
}

fn generic_value(
    alloc: Global,
    names: &Names,
    scope: &Scope,
    formal: &Option<Option<Subtype>>,
    place: Place,
    expr: &Expr,
    notes: &mut Notes,
) -> Result<Actual, AllocError>
    requires { IsSoundScope scope.now }
    ensures found { Finds (spec.generic_value names.now scope.now formal.now place expr.now notes.old) result notes.new }
    ensures sound { IfOk result IsSoundActual }
{
    match static_part(alloc, names, scope, expr, notes) {
        Ok(part) => value_found(place, formal, &part, notes),
        Err(error) => Err(error),
    }
}

/// A name as an actual.
fn named_generic(
    alloc: Global,
    names: &Names,
    scope: &Scope,
    formal: &Option<Option<Subtype>>,
    place: Place,
    name: Name,
    expr: &Expr,
    notes: &mut Notes,
) -> Result<Actual, AllocError>
    requires { IsSoundScope scope.now }
    ensures found { Finds (spec.object_or (spec.has_no_value (lookup scope.now name.number)) name.number (lookup scope.now name.number) (spec.generic_value names.now scope.now formal.now place expr.now notes.old) notes.old) result notes.new }
    ensures sound { IfOk result IsSoundActual }
{
    let thing = scope.find(name.number);
    if !has_no_value(&thing) {
        return generic_value(alloc, names, scope, formal, place, expr, notes);
    }
    match &thing {
        Some(thing) => Ok(Actual::Object(name.number, *thing)),
        None => generic_value(alloc, names, scope, formal, place, expr, notes),
    }
}

/// Reads the actual of a generic: an expression with its value, or the name of a thing that has none.
pub fn generic_actual(
    alloc: Global,
    names: &Names,
    scope: &Scope,
    formal: &Option<Option<Subtype>>,
    place: Place,
    expr: &Expr,
    notes: &mut Notes,
) -> Result<Actual, AllocError>
    requires { IsSoundScope scope.now }
    ensures found { Finds (spec.generic_actual names.now scope.now formal.now place expr.now (out-Expr expr.now) notes.old) result notes.new }
    ensures sound { IfOk result IsSoundActual }
{
    match expr {
        Expr::Name(name) => named_generic(alloc, names, scope, formal, place, *name, expr, notes),
        _ => generic_value(alloc, names, scope, formal, place, expr, notes),
    }
}
