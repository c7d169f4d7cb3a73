//! The statements of an architecture (IEEE 1076, 11; IEEE 1076.1, 15).
ghost use Rattle.std.specs.Prelude.{◌≡◌, OnOk};
ghost use Rattle.std.specs.List.{fold};
ghost use Rattle.unit_meaning.specs.Concurrent as concurrents;
ghost use Rattle.unit_meaning.specs.Units as spec;
ghost use Rattle.unit_index.specs.Index.{known};
ghost use Rattle.expr_types.specs.Known.{IsSoundScope};

use ams_tree::{Concurrent, ConcurrentStatement, Name};
use concurrent_types::concurrent;
use elab_meaning::Notes;
use formal_index::FormalIndex;
use name_scope::Scope;
use statement_parts::Setting;
use std::alloc::{AllocError, Global};
use unit_index::Units;

/// A statement that is no instance.
fn judge_other(
    alloc: Global,
    setting: &Setting<'_>,
    scope: &mut Scope,
    label: &Option<Name>,
    statement: &ConcurrentStatement,
    notes: &mut Notes,
) -> Result<(), AllocError>
    requires { IsSoundScope scope.old }
    ensures ok { OnOk result (notes.new ≡ (concurrents.concurrent setting.now scope.old label.now statement.now notes.old).0) }
    ensures scope { OnOk result (scope.new ≡ scope.old) }
    ensures sound { OnOk result (IsSoundScope scope.new) }
{
    let made = concurrent(alloc, setting, scope, label, statement, notes)?;
    drop(made);
    Ok(())
}

fn judge_statement(
    alloc: Global,
    setting: &Setting<'_>,
    start: &Scope,
    formals: &FormalIndex<'_>,
    scope: &mut Scope,
    written: &Concurrent,
    notes: &mut Notes,
) -> Result<(), AllocError>
    requires texts { formals.now.texts ≡ setting.now.texts }
    requires start { start.now ≡ spec.start_of setting.now.texts }
    requires scope { IsSoundScope scope.old }
    ensures ok { OnOk result (notes.new ≡ spec.judged_statement setting.now start.now formals.now.units scope.old notes.old written.now) }
    ensures scope { OnOk result (scope.new ≡ scope.old) }
    ensures sound { OnOk result (IsSoundScope scope.new) }
{
    let label = &written.label;
    match &written.statement {
        ConcurrentStatement::Instance(instance) => {
            formals.judge_instance(alloc, start, scope, instance, notes)
        }
        statement => judge_other(alloc, setting, scope, label, statement, notes),
    }
}

fn judge_each(
    alloc: Global,
    setting: &Setting<'_>,
    start: &Scope,
    formals: &FormalIndex<'_>,
    scope: &mut Scope,
    all: &[Concurrent],
    notes: &mut Notes,
) -> Result<(), AllocError>
    requires texts { formals.now.texts ≡ setting.now.texts }
    requires start { start.now ≡ spec.start_of setting.now.texts }
    requires scope { IsSoundScope scope.old }
    ensures ok { OnOk result (notes.new ≡ fold (spec.judged_statement setting.now start.now formals.now.units scope.old) notes.old all.now) }
    ensures scope { OnOk result (scope.new ≡ scope.old) }
{
    for written in all {
        judge_statement(alloc, setting, start, formals, scope, written, notes)?;
    }
    Ok(())
}

/// Notes what the statements of an architecture break. `start` is the scope round each unit, and `units` are those of the
/// file.
pub fn judge_statements(
    alloc: Global,
    setting: &Setting<'_>,
    start: &Scope,
    units: &Units<'_>,
    scope: &mut Scope,
    all: &[Concurrent],
    notes: &mut Notes,
) -> Result<(), AllocError>
    requires start { start.now ≡ spec.start_of setting.now.texts }
    requires scope { IsSoundScope scope.old }
    ensures ok { OnOk result (notes.new ≡ fold (spec.judged_statement setting.now start.now (known units.now) scope.old) notes.old all.now) }
    ensures scope { OnOk result (scope.new ≡ scope.old) }
{
    let formals = FormalIndex::of(alloc, setting.names(), units, all)?;
    let judged = judge_each(alloc, setting, start, &formals, scope, all, notes);
    drop(formals);
    judged
}
