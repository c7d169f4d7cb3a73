//! Concurrent breaks (IEEE 1076.1, concurrent break statement).
ghost use Rattle.std.specs.Prelude.{◌≡◌, IfOk};
ghost use Rattle.elab_meaning.specs.Parts as parts;
ghost use Rattle.elab_meaning.specs.declared.part.Part.TheVariants as part;
ghost use Rattle.unit_meaning.specs.Bare as bare;
ghost use Rattle.unit_meaning.specs.Processes as spec;
ghost use Rattle.expr_types.specs.Known.{Finds, IsSoundScope};
ghost use Rattle.concurrent_processes.specs.Breaks.{names_and_condition};

use crate::waiting::waiting_process;
use ams_token::Place;
use ams_tree::{BreakElement as Written, Expr};
use bare_types::{break_elements, sensitivity, signals_in_some};
use elab_meaning::{Notes, Part};
use flat_design::Process;
use flat_expr::{BreakElement, FlatExpr, SignalName, Statement};
use held_value::Held;
use name_scope::Scope;
use signal_list::once;
use sqlite_items::Items;
use statement_parts::{Setting, both, condition, finish};
use std::alloc::{AllocError, Global};

/// Without names the signals of the condition are waited for. Each stands once.
fn break_signals(
    alloc: Global,
    names: &[Expr],
    all: Items<SignalName>,
    when: &Option<FlatExpr>,
) -> Result<Items<SignalName>, AllocError>
    ensures { IfOk result (λ signals. signals ≡ bare.once (spec.break_signals names.now all when.now)) }
{
    match names {
        [] => {
            drop(all);
            let signals = signals_in_some(alloc, when)?;
            once(alloc, signals.as_slice())
        }
        _ => once(alloc, all.as_slice()),
    }
}

fn broken(
    alloc: Global,
    names: &[Expr],
    elements: Items<BreakElement>,
    signals: Items<SignalName>,
    when: Option<FlatExpr>,
) -> Result<Process, AllocError>
    ensures { IfOk result (λ made. part.Kept made ≡ spec.breaking names.now elements (signals, when)) }
{
    let signals = break_signals(alloc, names, signals, &when)?;
    let statement = Statement::Break(elements, when);
    waiting_process(alloc, Items::new(alloc), signals, statement)
}

fn breaking(
    alloc: Global,
    names: &[Expr],
    elements: Part<Items<BreakElement>>,
    behind: Part<(Items<SignalName>, Option<FlatExpr>)>,
) -> Result<Part<Process>, AllocError>
    ensures { IfOk result (λ made. made ≡ parts.both (spec.breaking names.now) elements behind) }
{
    match both(elements, behind) {
        Part::Kept((elements, (signals, when))) => {
            Ok(Part::Kept(broken(alloc, names, elements, signals, when)?))
        }
        Part::Wrong => Ok(Part::Wrong),
        Part::Hidden => Ok(Part::Hidden),
    }
}

/// The signals of the names, and the condition.
fn break_condition(
    alloc: Global,
    setting: &Setting<'_>,
    scope: &Scope,
    names: &[Expr],
    when: &Option<Expr>,
    notes: &mut Notes,
) -> Result<Part<(Items<SignalName>, Option<FlatExpr>)>, AllocError>
    requires { IsSoundScope scope.now }
    ensures { Finds (names_and_condition setting.now scope.now names.now when.now notes.old) result notes.new }
{
    let signals = sensitivity(alloc, setting, scope, names, notes)?;
    let when = condition(alloc, setting, scope, when, notes)?;
    Ok(both(signals, when))
}

/// A break is a process that breaks whenever a signal behind `on`, or else one of its condition, has an event.
pub fn concurrent_break(
    alloc: Global,
    setting: &Setting<'_>,
    scope: &Scope,
    place: Place,
    elements: &[Written],
    names: &[Expr],
    when: &Option<Expr>,
    notes: &mut Notes,
) -> Result<Part<Process>, AllocError>
    requires { IsSoundScope scope.now }
    ensures { Finds (spec.concurrent_break setting.now scope.now place elements.now names.now when.now notes.old) result notes.new }
{
    let elements = break_elements(alloc, setting, scope, elements, notes)?;
    let elements = Held::new(elements);
    let behind = break_condition(alloc, setting, scope, names, when, notes)?;
    let made = breaking(alloc, names, elements.into_inner(), behind)?;
    finish(place, made, notes)
}
