//! Signals that are waited for (IEEE 1076, 10.2).
ghost use Rattle.std.specs.Prelude.{◌≡◌, Some};
ghost use Rattle.elab_meaning.specs.Parts.{both, found_thing, judged};
ghost use Rattle.name_scope.specs.Scopes.{lookup};
ghost use Rattle.ams_tree.specs.declared.expression.Attribute.{out-Attribute};
ghost use Rattle.unit_meaning.specs.Bare as spec;
ghost use Rattle.unit_meaning.specs.Settings.{listed};
ghost use Rattle.expr_types.specs.Known.{Finds, IsSoundScope};

use crate::signals::once;
use crate::thresholds::threshold_at;
use crate::wrong::{wrong_attribute, wrong_name};
use ams_tree::{Attribute, Expr, Name};
use elab_meaning::{Notes, Part};
use expr_types::static_value;
use flat_expr::SignalName;
use name_scope::{Scope, Thing};
use sqlite_items::Items;
use statement_parts::{RUNNING, Setting, found_thing, put};
use std::alloc::{AllocError, Global};

fn signal_of(thing: &Thing) -> Part<SignalName>
    ensures { result ≡ spec.signal_of thing.now }
{
    match thing {
        Thing::Signal(number, _, _) => Part::Kept(SignalName::Signal(*number)),
        Thing::Domain => Part::Kept(SignalName::Domain),
        _ => Part::Wrong,
    }
}

/// A signal by its name.
fn named_signal(
    scope: &Scope,
    name: Name,
    notes: &mut Notes,
) -> Result<Part<SignalName>, AllocError>
    ensures { let found = found_thing name (lookup scope.now name.number) notes.old in Finds (found.0, judged spec.signal_of found.1) result notes.new }
{
    match found_thing(name, &scope.find(name.number), notes) {
        Ok(Part::Kept(thing)) => Ok(signal_of(&thing)),
        Ok(Part::Wrong) => Ok(Part::Wrong),
        Ok(Part::Hidden) => Ok(Part::Hidden),
        Err(error) => Err(error),
    }
}

/// A threshold, behind what its quantity's name stands for.
fn threshold_behind(
    alloc: Global,
    setting: &Setting<'_>,
    scope: &Scope,
    found: &Part<Thing>,
    level: &Expr,
    notes: &mut Notes,
) -> Result<Part<SignalName>, AllocError>
    requires { IsSoundScope scope.now }
    ensures { let value = spec.static_part setting.now scope.now level.now notes.old in Finds (spec.threshold_at (both spec.level_at found.now value.1) value.0) result notes.new }
{
    match static_value(alloc, setting.names(), scope, RUNNING, level, notes) {
        Ok(value) => threshold_at(found, &value, notes),
        Err(error) => Err(error),
    }
}

fn watched_attribute(
    alloc: Global,
    setting: &Setting<'_>,
    scope: &Scope,
    name: Name,
    attribute: &Attribute,
    notes: &mut Notes,
) -> Result<Part<SignalName>, AllocError>
    requires { IsSoundScope scope.now }
    ensures { Finds (spec.watched_attribute setting.now scope.now name attribute.now (out-Attribute attribute.now) notes.old) result notes.new }
{
    match attribute {
        Attribute::Above(level) => match found_thing(name, &scope.find(name.number), notes) {
            Ok(found) => threshold_behind(alloc, setting, scope, &found, level.get(), notes),
            Err(error) => Err(error),
        },
        _ => wrong_attribute(alloc, setting, scope, name, attribute, notes),
    }
}

fn watched_signal(
    alloc: Global,
    setting: &Setting<'_>,
    scope: &Scope,
    expr: &Expr,
    notes: &mut Notes,
) -> Result<Part<SignalName>, AllocError>
    requires { IsSoundScope scope.now }
    ensures { Finds (spec.watched_signal setting.now scope.now expr.now notes.old) result notes.new }
{
    match expr {
        Expr::Name(name) => named_signal(scope, *name, notes),
        Expr::Attribute(name, attribute) => {
            watched_attribute(alloc, setting, scope, *name, attribute, notes)
        }
        _ => wrong_name(alloc, setting, scope, expr, notes),
    }
}

#[tactic(auto, using(statement_parts::proofs::Puts::put_ahead, statement_parts::proofs::Puts::put_none, statement_parts::proofs::Puts::put_first))]
fn watched_signals(
    alloc: Global,
    setting: &Setting<'_>,
    scope: &Scope,
    names: &[Expr],
    notes: &mut Notes,
) -> Result<Part<Items<SignalName>>, AllocError>
    requires { IsSoundScope scope.now }
    ensures { Finds (listed (spec.watched_signal setting.now scope.now) names.now notes.old) result notes.new }
{
    let mut all = Part::Kept(Items::new(alloc));
    for name in names {
        let one = watched_signal(alloc, setting, scope, name, notes)?;
        all = put(all, one)?;
    }
    Ok(all)
}

/// The signals of a sensitivity list, each once.
pub fn sensitivity(
    alloc: Global,
    setting: &Setting<'_>,
    scope: &Scope,
    names: &[Expr],
    notes: &mut Notes,
) -> Result<Part<Items<SignalName>>, AllocError>
    requires { IsSoundScope scope.now }
    ensures { Finds (spec.sensitivity setting.now scope.now names.now notes.old) result notes.new }
{
    match watched_signals(alloc, setting, scope, names, notes)? {
        Part::Kept(all) => Ok(Part::Kept(once(alloc, all.as_slice())?)),
        Part::Wrong => Ok(Part::Wrong),
        Part::Hidden => Ok(Part::Hidden),
    }
}
