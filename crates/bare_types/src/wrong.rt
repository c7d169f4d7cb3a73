//! Names that are wrong where they stand: only the expressions inside them are judged.
ghost use Rattle.std.specs.Prelude.{◌≡◌, ◌&&◌, [], Some, map, is_some};
ghost use Rattle.elab_meaning.specs.Expressions as expressions;
ghost use Rattle.elab_meaning.specs.Parts as parts;
ghost use Rattle.name_scope.specs.Scopes.{lookup};
ghost use Rattle.ams_tree.specs.declared.expression.Attribute.{out-Attribute};
ghost use Rattle.ams_tree.specs.declared.expression.Expr.{out-Expr};
ghost use Rattle.ams_tree.specs.declared.expression.Attribute.TheOpen.{Expr-F};
ghost use Rattle.unit_meaning.specs.Bare as spec;
ghost use Rattle.unit_meaning.specs.Settings.{listed, running};
ghost use Rattle.expr_types.specs.Known.{Finds, IsSoundScope};
ghost use Rattle.bare_types.specs.Kinds.{is_hidden, option_list, wrong_unless};

use ams_tree::{Attribute, Expr, Name};
use elab_meaning::{Notes, Part, Typed};
use expr_types::{expression, static_value};
use name_scope::{Scope, Thing};
use sqlite_items::{Boxed, Items};
use statement_parts::{RUNNING, Setting, found_thing};
use std::alloc::{AllocError, Global};

/// Whether a static expression breaks a rule.
fn is_broken(
    alloc: Global,
    setting: &Setting<'_>,
    scope: &Scope,
    expr: &Expr,
    notes: &mut Notes,
) -> Result<bool, AllocError>
    requires { IsSoundScope scope.now }
    ensures { let part = spec.static_part setting.now scope.now expr.now notes.old in Finds (part.0, is_hidden part.1) result notes.new }
{
    match static_value(alloc, setting.names(), scope, RUNNING, expr, notes) {
        Ok(Some(_)) => Ok(false),
        Ok(None) => Ok(true),
        Err(error) => Err(error),
    }
}

/// The same of one that may be left out.
#[tactic(auto, using(crate::proofs::WrongNames::one_hidden))]
fn is_broken_part(
    alloc: Global,
    setting: &Setting<'_>,
    scope: &Scope,
    expr: &Option<Boxed<Expr>>,
    notes: &mut Notes,
) -> Result<bool, AllocError>
    requires { IsSoundScope scope.now }
    ensures { let part = listed (spec.static_part setting.now scope.now) (option_list expr.now) notes.old in Finds (part.0, is_hidden part.1) result notes.new }
{
    match expr {
        Some(expr) => is_broken(alloc, setting, scope, expr.get(), notes),
        None => Ok(false),
    }
}

/// Whether what stands inside an attribute breaks a rule.
#[tactic(auto, using(crate::proofs::WrongNames::one_hidden, crate::proofs::WrongNames::ramp_notes, crate::proofs::WrongNames::ramp_hidden))]
fn is_broken_inside(
    alloc: Global,
    setting: &Setting<'_>,
    scope: &Scope,
    attribute: &Attribute,
    notes: &mut Notes,
) -> Result<bool, AllocError>
    requires { IsSoundScope scope.now }
    ensures { let inner = spec.inside_attribute setting.now scope.now (out-Attribute attribute.now) notes.old in Finds (inner.0, is_hidden inner.1) result notes.new }
{
    match attribute {
        Attribute::Above(level) => is_broken(alloc, setting, scope, level.get(), notes),
        Attribute::Ramp(rise, fall) => {
            let rise = is_broken_part(alloc, setting, scope, rise, notes)?;
            let fall = is_broken_part(alloc, setting, scope, fall, notes)?;
            Ok(rise || fall)
        }
        _ => Ok(false),
    }
}

fn still_fine(fine: bool, found: &Option<Typed>) -> bool
    ensures { result ≡ (fine && is_some found.now) }
{
    match found {
        Some(_) => fine,
        None => false,
    }
}

/// Whether all arguments keep the rules.
#[tactic(auto, using(crate::proofs::WrongNames::notes_behind, crate::proofs::WrongNames::fine_behind))]
fn are_fine(
    alloc: Global,
    setting: &Setting<'_>,
    scope: &Scope,
    exprs: &[Expr],
    notes: &mut Notes,
) -> Result<bool, AllocError>
    requires { IsSoundScope scope.now }
    ensures { let all = expressions.arguments running (Some []) (map (expressions.expression setting.now.texts scope.now) exprs.now) notes.old in Finds (all.0, is_some all.1) result notes.new }
{
    let mut fine = true;
    for expr in exprs {
        let found = expression(alloc, setting.names(), scope, RUNNING, expr, notes)?;
        fine = still_fine(fine, &found);
        drop(found);
    }
    Ok(fine)
}

/// Whether a name stands for nothing of which more is said, which is noted where it has no declaration.
fn is_missing(scope: &Scope, name: Name, notes: &mut Notes) -> Result<bool, AllocError>
    ensures { let found = parts.found_thing name (lookup scope.now name.number) notes.old in Finds (found.0, is_hidden found.1) result notes.new }
{
    match found_thing(name, &scope.find(name.number), notes) {
        Ok(Part::Hidden) => Ok(true),
        Ok(_) => Ok(false),
        Err(error) => Err(error),
    }
}

/// Of what is wrong where it stands, whether something in it breaks a rule or not.
fn wrong_unless<T: Drop>(is_broken: bool) -> Part<T>
    ensures { result ≡ wrong_unless is_broken }
{
    if is_broken { Part::Hidden } else { Part::Wrong }
}

/// An attribute of a name that is wrong where it stands.
#[tactic(auto, using(crate::proofs::WrongNames::both_wrong))]
pub fn wrong_attribute<T: Drop>(
    alloc: Global,
    setting: &Setting<'_>,
    scope: &Scope,
    name: Name,
    attribute: &Attribute,
    notes: &mut Notes,
) -> Result<Part<T>, AllocError>
    requires { IsSoundScope scope.now }
    ensures { Finds (spec.wrong_name setting.now scope.now (Expr-F.Attribute name attribute.now) notes.old) result notes.new }
{
    let missing = is_missing(scope, name, notes)?;
    let broken = is_broken_inside(alloc, setting, scope, attribute, notes)?;
    Ok(wrong_unless(missing || broken))
}

/// A name with arguments that is wrong where it stands.
#[tactic(auto, using(crate::proofs::WrongNames::both_wrong, crate::proofs::WrongNames::part_hidden))]
fn wrong_call<T: Drop>(
    alloc: Global,
    setting: &Setting<'_>,
    scope: &Scope,
    name: Name,
    exprs: &Items<Expr>,
    notes: &mut Notes,
) -> Result<Part<T>, AllocError>
    requires { IsSoundScope scope.now }
    ensures { Finds (spec.wrong_name setting.now scope.now (Expr-F.Call name exprs.now) notes.old) result notes.new }
{
    let missing = is_missing(scope, name, notes)?;
    let fine = are_fine(alloc, setting, scope, exprs.as_slice(), notes)?;
    Ok(wrong_unless(missing || !fine))
}

/// What stands where a name of another kind must.
#[tactic(auto, using(crate::proofs::WrongNames::judged_wrong))]
pub fn wrong_name<T: Drop>(
    alloc: Global,
    setting: &Setting<'_>,
    scope: &Scope,
    expr: &Expr,
    notes: &mut Notes,
) -> Result<Part<T>, AllocError>
    requires { IsSoundScope scope.now }
    ensures { Finds (spec.wrong_name setting.now scope.now (out-Expr expr.now) notes.old) result notes.new }
{
    match expr {
        Expr::Name(name) => {
            let missing = is_missing(scope, *name, notes)?;
            Ok(wrong_unless(missing))
        }
        Expr::Call(name, exprs) => wrong_call(alloc, setting, scope, *name, exprs, notes),
        Expr::Attribute(name, attribute) => {
            wrong_attribute(alloc, setting, scope, *name, attribute, notes)
        }
        _ => Ok(Part::Wrong),
    }
}
