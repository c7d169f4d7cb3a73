//! Concurrent assertions (IEEE 1076, 11.5).
ghost use Rattle.std.specs.Prelude.{◌≡◌, IfOk};
ghost use Rattle.elab_meaning.specs.Parts.{judged};
ghost use Rattle.elab_meaning.specs.declared.part.Part.TheVariants as part;
ghost use Rattle.unit_meaning.specs.Bare as bare;
ghost use Rattle.unit_meaning.specs.Processes as spec;
ghost use Rattle.expr_types.specs.Known.{Finds, IsSoundScope};

use crate::waiting::waiting_process;
use ams_tree::Assertion;
use bare_types::add_signals;
use elab_meaning::{Notes, Part};
use flat_design::Process;
use flat_expr::{FlatExpr, Severity, SignalName, Statement};
use name_scope::Scope;
use signal_list::once;
use simple_types::{assertion_parts, assertion_text};
use sqlite_items::Items;
use statement_parts::{Setting, finish};
use std::alloc::{AllocError, Global};

/// The signals that a condition reads, each once.
fn signals_once(alloc: Global, condition: &FlatExpr) -> Result<Items<SignalName>, AllocError>
    ensures { IfOk result (λ all. all ≡ bare.once (bare.signals_in condition.now)) }
{
    let mut all = Items::new(alloc);
    add_signals(condition, &mut all)?;
    once(alloc, all.as_slice())
}

fn asserted(
    alloc: Global,
    text: Items<u8>,
    condition: FlatExpr,
    severity: Severity,
) -> Result<Process, AllocError>
    ensures { IfOk result (λ made. part.Kept made ≡ spec.asserting text (condition, severity)) }
{
    let signals = signals_once(alloc, &condition)?;
    let statement = Statement::Assert(condition, text, severity);
    waiting_process(alloc, Items::new(alloc), signals, statement)
}

fn asserting(
    alloc: Global,
    text: Items<u8>,
    parts: Part<(FlatExpr, Severity)>,
) -> Result<Part<Process>, AllocError>
    ensures { IfOk result (λ made. made ≡ judged (spec.asserting text) parts) }
{
    match parts {
        Part::Kept((condition, severity)) => {
            Ok(Part::Kept(asserted(alloc, text, condition, severity)?))
        }
        Part::Wrong => Ok(Part::Wrong),
        Part::Hidden => Ok(Part::Hidden),
    }
}

/// An assertion is a process that asserts whenever a signal of its condition has an event.
pub fn concurrent_assertion(
    alloc: Global,
    setting: &Setting<'_>,
    scope: &Scope,
    assertion: &Assertion,
    notes: &mut Notes,
) -> Result<Part<Process>, AllocError>
    requires { IsSoundScope scope.now }
    ensures { Finds (spec.concurrent_assertion setting.now scope.now assertion.now notes.old) result notes.new }
{
    let text = assertion_text(alloc, setting, &assertion.text)?;
    let parts = assertion_parts(alloc, setting, scope, assertion, notes)?;
    let made = asserting(alloc, text, parts)?;
    finish(assertion.place, made, notes)
}
