//! Concurrent and simultaneous statements by their kind.
ghost use Rattle.std.specs.Prelude.{◌≡◌, OnOk};
ghost use Rattle.unit_meaning.specs.Concurrent as spec;
ghost use Rattle.expr_types.specs.Known.{Finds, IsSoundScope};

use crate::equations::{case_equation, equation, if_equation};
use crate::processes::{asserting_process, assigning_process, breaking_process, written_process};
use ams_tree::{ConcurrentStatement, Name};
use elab_meaning::Notes;
use name_scope::Scope;
use statement_parts::Setting;
use std::alloc::{AllocError, Global};
use unit_meaning::Made;

/// Reads a concurrent or simultaneous statement with its label. An instance gives nothing here: instances are entered, not
/// read.
pub fn concurrent(
    alloc: Global,
    setting: &Setting<'_>,
    scope: &mut Scope,
    label: &Option<Name>,
    statement: &ConcurrentStatement,
    notes: &mut Notes,
) -> Result<Made, AllocError>
    requires { IsSoundScope scope.old }
    ensures found { Finds (spec.concurrent setting.now scope.old label.now statement.now notes.old) result notes.new }
    ensures scope { OnOk result (scope.new ≡ scope.old) }
{
    match statement {
        ConcurrentStatement::Process(written) => {
            written_process(alloc, setting, scope, label, written, notes)
        }
        ConcurrentStatement::Assign(name, delay, first, last, when) => {
            let (first, last) = (first.as_slice(), last.as_slice());
            assigning_process(
                alloc, setting, scope, *name, delay, first, last, when, notes,
            )
        }
        ConcurrentStatement::Assert(written) => {
            asserting_process(alloc, setting, scope, written, notes)
        }
        ConcurrentStatement::Break(place, elements, names, when) => {
            let (elements, names) = (elements.as_slice(), names.as_slice());
            breaking_process(alloc, setting, scope, *place, elements, names, when, notes)
        }
        ConcurrentStatement::Equation(written) => {
            equation(alloc, setting, scope, written, notes)
        }
        ConcurrentStatement::If(place, branches, last) => {
            let branches = branches.as_slice();
            if_equation(alloc, setting, scope, *place, branches, last, notes)
        }
        ConcurrentStatement::Case(place, expr, alternatives) => {
            let alternatives = alternatives.as_slice();
            case_equation(alloc, setting, scope, *place, expr, alternatives, notes)
        }
        ConcurrentStatement::Instance(_) => Ok(Made::Nothing),
    }
}
