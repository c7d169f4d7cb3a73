//! Statements that hold no others, with their own faults noted.
ghost use Rattle.std.specs.Prelude.{◌≡◌};
ghost use Rattle.flat_expr.specs.declared.statement.Statement.TheVariants as statement;
ghost use Rattle.unit_meaning.specs.Sequential as spec;
ghost use Rattle.expr_types.specs.Known.{IsSoundScope};
ghost use Rattle.simple_types.specs.Drafts.{FindsIn};

use crate::reports::{assertion, report};
use crate::simple::{break_parts, exit, next, variable_assignment};
use crate::spots::add_wait;
use crate::waits::wait_parts;
use ams_token::Place;
use ams_tree::{Assertion, BreakElement, Expr, Name, Report};
use elab_meaning::Part;
use flat_expr::Statement;
use held_value::Held;
use name_scope::Scope;
use statement_parts::{Setting, finish};
use std::alloc::{AllocError, Global};
use unit_meaning::{Draft, Spot};

/// An assignment to a variable.
pub fn variable_statement(
    alloc: Global,
    setting: &Setting<'_>,
    scope: &Scope,
    name: Name,
    value: &Expr,
    draft: &mut Draft,
) -> Result<Part<Statement>, AllocError>
    requires { IsSoundScope scope.now }
    ensures { FindsIn (spec.simple name.place draft.old (spec.variable_assignment setting.now scope.now name value.now draft.old.notes)) result draft.new }
{
    let made = variable_assignment(alloc, setting, scope, name, value, &mut draft.notes)?;
    finish(name.place, made, &mut draft.notes)
}

pub fn exit_statement(
    alloc: Global,
    setting: &Setting<'_>,
    scope: &Scope,
    spot: &Spot,
    place: Place,
    when: &Option<Expr>,
    draft: &mut Draft,
) -> Result<Part<Statement>, AllocError>
    requires { IsSoundScope scope.now }
    ensures { FindsIn (spec.simple place draft.old (spec.leaving setting.now scope.now spot.now statement.Exit when.now draft.old.notes)) result draft.new }
{
    let made = exit(alloc, setting, scope, spot, when, &mut draft.notes)?;
    finish(place, made, &mut draft.notes)
}

pub fn next_statement(
    alloc: Global,
    setting: &Setting<'_>,
    scope: &Scope,
    spot: &Spot,
    place: Place,
    when: &Option<Expr>,
    draft: &mut Draft,
) -> Result<Part<Statement>, AllocError>
    requires { IsSoundScope scope.now }
    ensures { FindsIn (spec.simple place draft.old (spec.leaving setting.now scope.now spot.now statement.Next when.now draft.old.notes)) result draft.new }
{
    let made = next(alloc, setting, scope, spot, when, &mut draft.notes)?;
    finish(place, made, &mut draft.notes)
}

/// A wait statement, by its number in its list: its names, its condition and its time.
pub fn wait_statement(
    alloc: Global,
    setting: &Setting<'_>,
    scope: &Scope,
    spot: &Spot,
    number: u32,
    place: Place,
    names: &[Expr],
    until: &Option<Expr>,
    time: &Option<Expr>,
    draft: &mut Draft,
) -> Result<Part<Statement>, AllocError>
    requires { IsSoundScope scope.now }
    ensures { FindsIn (spec.simple place (spec.with_wait spot.now number draft.old) (spec.wait_statement setting.now scope.now names.now until.now time.now draft.old)) result draft.new }
{
    let made = wait_parts(alloc, setting, scope, names, until, time, draft)?;
    let made = finish(place, made, &mut draft.notes)?;
    let made = Held::new(made);
    add_wait(alloc, spot, number, draft)?;
    Ok(made.into_inner())
}

pub fn assert_statement(
    alloc: Global,
    setting: &Setting<'_>,
    scope: &Scope,
    written: &Assertion,
    draft: &mut Draft,
) -> Result<Part<Statement>, AllocError>
    requires { IsSoundScope scope.now }
    ensures { FindsIn (spec.simple written.now.place draft.old (spec.assertion setting.now scope.now written.now draft.old.notes)) result draft.new }
{
    let made = assertion(alloc, setting, scope, written, &mut draft.notes)?;
    finish(written.place, made, &mut draft.notes)
}

pub fn report_statement(
    alloc: Global,
    setting: &Setting<'_>,
    place: Place,
    written: &Report,
    draft: &mut Draft,
) -> Result<Part<Statement>, AllocError>
    ensures { FindsIn (spec.simple place draft.old (draft.old.notes, spec.report setting.now written.now)) result draft.new }
{
    let made = report(alloc, setting, written)?;
    finish(place, made, &mut draft.notes)
}

pub fn break_statement(
    alloc: Global,
    setting: &Setting<'_>,
    scope: &Scope,
    place: Place,
    elements: &[BreakElement],
    when: &Option<Expr>,
    draft: &mut Draft,
) -> Result<Part<Statement>, AllocError>
    requires { IsSoundScope scope.now }
    ensures { FindsIn (spec.simple place draft.old (spec.break_statement setting.now scope.now elements.now when.now draft.old.notes)) result draft.new }
{
    let made = break_parts(alloc, setting, scope, elements, when, &mut draft.notes)?;
    finish(place, made, &mut draft.notes)
}
