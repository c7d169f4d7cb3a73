//! Free quantities (IEEE 1076.1, 6.4.2.7).
ghost use Rattle.std.specs.Prelude.{◌≡◌, ℤ, pos, Some, IfOk};
ghost use Rattle.elab_meaning.specs.declared.part.Part.TheVariants.{Kept};
ghost use Rattle.elab_meaning.specs.declared.typed.Valued.{Valued as Given};
ghost use Rattle.name_scope.specs.declared.thing.Subtype.{Subtype as Bounded};
ghost use Rattle.elab_meaning.specs.Declarations as spec;
ghost use Rattle.elab_meaning.specs.Parts.{judged};
ghost use Rattle.elab_meaning.specs.Subtypes.{subtype};
ghost use Rattle.expr_types.specs.Known.{Finds, IsSoundScope};
ghost use Rattle.decl_types.specs.Books.{FindsIn};

use ams_token::Names;
use ams_tree::{Expr, SubtypeIndication};
use ams_value::{Val, ValueType};
use elab_meaning::{Book, Notes, Part, Valued};
use expr_types::same_kind;
use fix_core::Fix;
use name_scope::{Kind, Scope, Subtype};
use std::alloc::{AllocError, Global};
use subtype_types::{initial, subtype};

fn free_part(part: &Part<Subtype>) -> Part<Subtype>
    ensures { result ≡ judged spec.free_of part.now }
{
    match part {
        Part::Kept(subtype) => {
            if same_kind(subtype.kind, Kind::Of(ValueType::Real)) {
                Part::Kept(*subtype)
            } else {
                Part::Wrong
            }
        }
        Part::Wrong => Part::Wrong,
        Part::Hidden => Part::Hidden,
    }
}

/// Reads the subtype of a quantity, which is one of REAL.
pub fn real_subtype(
    alloc: Global,
    names: &Names,
    scope: &Scope,
    indication: &SubtypeIndication,
    notes: &mut Notes,
) -> Result<Part<Subtype>, AllocError>
    requires { IsSoundScope scope.now }
    ensures { let s = subtype names.now scope.now indication.now notes.old in Finds (s.0, judged spec.free_of s.1) result notes.new }
{
    match subtype(alloc, names, scope, indication, notes) {
        Ok(part) => Ok(free_part(&part)),
        Err(error) => Err(error),
    }
}

fn initial_real(value: &Option<Val>) -> Fix
    ensures { result ≡ spec.initial_real value.now }
{
    match value {
        Some(Val::Real(number)) => *number,
        _ => Fix::exactly(0),
    }
}

fn real_part(part: &Part<Valued>) -> Part<Fix>
    ensures { result ≡ judged (λ (v : Given). Kept (spec.initial_real v.value)) part.now }
{
    match part {
        Part::Kept(valued) => Part::Kept(initial_real(&valued.value)),
        Part::Wrong => Part::Wrong,
        Part::Hidden => Part::Hidden,
    }
}

fn zero_part(part: &Part<Subtype>) -> Part<Fix>
    ensures { result ≡ judged (λ (s : Bounded). Kept (pos 0)) part.now }
{
    match part {
        Part::Kept(_) => Part::Kept(Fix::exactly(0)),
        Part::Wrong => Part::Wrong,
        Part::Hidden => Part::Hidden,
    }
}

fn free_value(
    alloc: Global,
    names: &Names,
    scope: &Scope,
    part: &Part<Subtype>,
    expr: &Option<Expr>,
    notes: &mut Notes,
) -> Result<Part<Fix>, AllocError>
    requires { IsSoundScope scope.now }
    ensures { Finds (spec.free_value names.now scope.now part.now expr.now notes.old) result notes.new }
{
    if expr.is_none() {
        return Ok(zero_part(part));
    }
    match initial(alloc, names, scope, part, expr, notes) {
        Ok(part) => Ok(real_part(&part)),
        Err(error) => Err(error),
    }
}

/// Reads the subtype and the initial value of free quantities.
pub fn free_quantity(
    alloc: Global,
    names: &Names,
    indication: &SubtypeIndication,
    expr: &Option<Expr>,
    book: &mut Book,
) -> Result<Part<Fix>, AllocError>
    requires { IsSoundScope book.old.scope }
    ensures { FindsIn (spec.free_quantity names.now indication.now expr.now book.old) result book.old book.new }
{
    match real_subtype(alloc, names, &book.scope, indication, &mut book.notes) {
        Ok(part) => free_value(alloc, names, &book.scope, &part, expr, &mut book.notes),
        Err(error) => Err(error),
    }
}
