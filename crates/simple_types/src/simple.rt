//! Statements that hold no others (IEEE 1076, 10.5 to 10.12).
ghost use Rattle.std.specs.Prelude.{◌≡◌, Option};
ghost use Rattle.elab_meaning.specs.Parts as parts;
ghost use Rattle.elab_meaning.specs.Parts.{judged, where_true};
ghost use Rattle.flat_expr.specs.declared.expr.FlatExpr.{FlatExpr as Expression};
ghost use Rattle.flat_expr.specs.declared.statement.Statement.TheVariants as statement;
ghost use Rattle.name_scope.specs.Scopes.{lookup};
ghost use Rattle.unit_meaning.specs.Settings as parts_of;
ghost use Rattle.unit_meaning.specs.Waveforms.{assignment, target};
ghost use Rattle.unit_meaning.specs.Sequential as spec;
ghost use Rattle.expr_types.specs.Known.{Finds, IsSoundScope};
ghost use Rattle.simple_types.specs.Drafts.{FindsIn};

use crate::drafts::add_drivers;
use ams_tree::{BreakElement, DelayMechanism, Expr, Name, WaveformElement};
use bare_types::break_elements;
use elab_meaning::{Notes, Part, Typed};
use flat_expr::{FlatExpr, Statement};
use name_scope::{Scope, Subtype, Thing};
use statement_parts::{
    RUNNING, Setting, assignment, both, condition, finish, found_thing, range_part, suits, target,
    typed, value_of,
};
use std::alloc::{AllocError, Global};
use unit_meaning::{Draft, Spot};

/// An assignment to a signal, which the process drives.
pub fn signal_statement(
    alloc: Global,
    setting: &Setting<'_>,
    scope: &Scope,
    name: Name,
    delay: &Option<DelayMechanism>,
    elements: &[WaveformElement],
    draft: &mut Draft,
) -> Result<Part<Statement>, AllocError>
    requires { IsSoundScope scope.now }
    ensures { let to = target scope.now name draft.old.notes in FindsIn (spec.simple name.place (spec.driving to.1 draft.old) (assignment setting.now scope.now to.1 delay.now elements.now to.0)) result draft.new }
{
    match target(scope, name, &mut draft.notes) {
        Ok(to) => driven(alloc, setting, scope, name, &to, delay, elements, draft),
        Err(error) => Err(error),
    }
}

/// The same behind its target.
fn driven(
    alloc: Global,
    setting: &Setting<'_>,
    scope: &Scope,
    name: Name,
    to: &Part<(u32, Subtype)>,
    delay: &Option<DelayMechanism>,
    elements: &[WaveformElement],
    draft: &mut Draft,
) -> Result<Part<Statement>, AllocError>
    requires { IsSoundScope scope.now }
    ensures { FindsIn (spec.simple name.place (spec.driving to.now draft.old) (assignment setting.now scope.now to.now delay.now elements.now draft.old.notes)) result draft.new }
{
    add_drivers(draft, to)?;
    let made = assignment(alloc, setting, scope, to, delay, elements, &mut draft.notes)?;
    finish(name.place, made, &mut draft.notes)
}

fn variable_of(thing: &Thing) -> Part<(u32, Subtype)>
    ensures { result ≡ spec.variable_of thing.now }
{
    match thing {
        Thing::Variable(number, subtype) => Part::Kept((*number, *subtype)),
        _ => Part::Wrong,
    }
}

/// A variable by its name: its number and its subtype.
fn variable(
    scope: &Scope,
    name: Name,
    notes: &mut Notes,
) -> Result<Part<(u32, Subtype)>, AllocError>
    ensures { let found = parts.found_thing name (lookup scope.now name.number) notes.old in Finds (found.0, judged spec.variable_of found.1) result notes.new }
{
    match found_thing(name, &scope.find(name.number), notes) {
        Ok(Part::Kept(thing)) => Ok(variable_of(&thing)),
        Ok(Part::Wrong) => Ok(Part::Wrong),
        Ok(Part::Hidden) => Ok(Part::Hidden),
        Err(error) => Err(error),
    }
}

fn set_variable(number: u32, subtype: &Subtype, value: Typed) -> Part<Statement>
    ensures { result ≡ spec.setting_variable (number, subtype.now) value }
{
    if suits(subtype, &value_of(&value)) {
        let range = range_part(&subtype.constraint);
        Part::Kept(Statement::VariableAssignment(number, range, value.expr))
    } else {
        drop(value);
        Part::Wrong
    }
}

fn set_part(to: &Part<(u32, Subtype)>, value: Part<Typed>) -> Part<Statement>
    ensures { result ≡ parts.both spec.setting_variable to.now value }
{
    match to {
        Part::Kept((number, subtype)) => match value {
            Part::Kept(value) => set_variable(*number, subtype, value),
            Part::Wrong => Part::Wrong,
            Part::Hidden => Part::Hidden,
        },
        Part::Wrong => match value {
            Part::Hidden => Part::Hidden,
            _ => Part::Wrong,
        },
        Part::Hidden => Part::Hidden,
    }
}

fn variable_behind(
    alloc: Global,
    setting: &Setting<'_>,
    scope: &Scope,
    to: &Part<(u32, Subtype)>,
    value: &Expr,
    notes: &mut Notes,
) -> Result<Part<Statement>, AllocError>
    requires { IsSoundScope scope.now }
    ensures { let v = parts_of.typed setting.now scope.now parts_of.running value.now notes.old in Finds (v.0, parts.both spec.setting_variable to.now v.1) result notes.new }
{
    let value = typed(alloc, setting, scope, RUNNING, value, notes)?;
    Ok(set_part(to, value))
}

/// An assignment to a variable.
pub fn variable_assignment(
    alloc: Global,
    setting: &Setting<'_>,
    scope: &Scope,
    name: Name,
    value: &Expr,
    notes: &mut Notes,
) -> Result<Part<Statement>, AllocError>
    requires { IsSoundScope scope.now }
    ensures { Finds (spec.variable_assignment setting.now scope.now name value.now notes.old) result notes.new }
{
    match variable(scope, name, notes) {
        Ok(to) => variable_behind(alloc, setting, scope, &to, value, notes),
        Err(error) => Err(error),
    }
}

/// A break (IEEE 1076.1, break statement).
pub fn break_parts(
    alloc: Global,
    setting: &Setting<'_>,
    scope: &Scope,
    elements: &[BreakElement],
    when: &Option<Expr>,
    notes: &mut Notes,
) -> Result<Part<Statement>, AllocError>
    requires { IsSoundScope scope.now }
    ensures { Finds (spec.break_statement setting.now scope.now elements.now when.now notes.old) result notes.new }
{
    let elements = break_elements(alloc, setting, scope, elements, notes)?;
    let when = condition(alloc, setting, scope, when, notes)?;
    match both(elements, when) {
        Part::Kept((elements, when)) => Ok(Part::Kept(Statement::Break(elements, when))),
        Part::Wrong => Ok(Part::Wrong),
        Part::Hidden => Ok(Part::Hidden),
    }
}

/// `exit` and `next` stand in a loop.
fn in_loop(spot: &Spot, when: Part<Option<FlatExpr>>) -> Part<Option<FlatExpr>>
    ensures { result ≡ judged (λ (x : Option Expression). where_true spot.now.is_in_loop x) when }
{
    match when {
        Part::Kept(when) => {
            if spot.is_in_loop {
                Part::Kept(when)
            } else {
                drop(when);
                Part::Wrong
            }
        }
        Part::Wrong => Part::Wrong,
        Part::Hidden => Part::Hidden,
    }
}

pub fn exit(
    alloc: Global,
    setting: &Setting<'_>,
    scope: &Scope,
    spot: &Spot,
    when: &Option<Expr>,
    notes: &mut Notes,
) -> Result<Part<Statement>, AllocError>
    requires { IsSoundScope scope.now }
    ensures { Finds (spec.leaving setting.now scope.now spot.now statement.Exit when.now notes.old) result notes.new }
{
    match in_loop(spot, condition(alloc, setting, scope, when, notes)?) {
        Part::Kept(when) => Ok(Part::Kept(Statement::Exit(when))),
        Part::Wrong => Ok(Part::Wrong),
        Part::Hidden => Ok(Part::Hidden),
    }
}

pub fn next(
    alloc: Global,
    setting: &Setting<'_>,
    scope: &Scope,
    spot: &Spot,
    when: &Option<Expr>,
    notes: &mut Notes,
) -> Result<Part<Statement>, AllocError>
    requires { IsSoundScope scope.now }
    ensures { Finds (spec.leaving setting.now scope.now spot.now statement.Next when.now notes.old) result notes.new }
{
    match in_loop(spot, condition(alloc, setting, scope, when, notes)?) {
        Part::Kept(when) => Ok(Part::Kept(Statement::Next(when))),
        Part::Wrong => Ok(Part::Wrong),
        Part::Hidden => Ok(Part::Hidden),
    }
}
