//! What stands in the region of a process.
ghost use Rattle.std.specs.Prelude.{◌≡◌, map, OnOk};
ghost use Rattle.std.specs.List.{fold};
ghost use Rattle.unit_meaning.specs.Processes as spec;
ghost use Rattle.unit_meaning.specs.Sequential as sequential;
ghost use Rattle.expr_types.specs.Known.{Finds, IsSoundScope};
ghost use Rattle.simple_types.specs.Drafts.{FindsIn};
ghost use Rattle.process_declarations.specs.Parts.{declared_at, fine_part};
ghost use Rattle.process_types.specs.Regions.{beginning, behind_signals, in_region, statements_of};

use crate::ending::process_part;
use ams_tree::{Expr, Process as Written, Seq};
use bare_types::sensitivity;
use elab_meaning::{Notes, Part};
use flat_design::Process;
use flat_expr::{SignalName, Statement};
use held_value::Held;
use name_scope::Scope;
use process_declarations::{DeclarativePart, process_declarations};
use seq_types::body;
use sqlite_items::Items;
use start_scope::no_notes;
use statement_parts::Setting;
use std::alloc::{AllocError, Global};
use std::mem;
use unit_meaning::{Draft, Spot};

/// The signals of a sensitivity list, where one is written.
fn listened(
    alloc: Global,
    setting: &Setting<'_>,
    scope: &Scope,
    names: &Option<Items<Expr>>,
    notes: &mut Notes,
) -> Result<Part<Option<Items<SignalName>>>, AllocError>
    requires { IsSoundScope scope.now }
    ensures { Finds (spec.listened setting.now scope.now names.now notes.old) result notes.new }
{
    let Some(names) = names else {
        return Ok(Part::Kept(None));
    };
    match sensitivity(alloc, setting, scope, names.as_slice(), notes)? {
        Part::Kept(all) => Ok(Part::Kept(Some(all))),
        Part::Wrong => Ok(Part::Wrong),
        Part::Hidden => Ok(Part::Hidden),
    }
}

/// The statements of a process.
fn statements(
    alloc: Global,
    setting: &Setting<'_>,
    scope: &mut Scope,
    written: &[Seq],
    draft: &mut Draft,
) -> Result<Part<Items<Statement>>, AllocError>
    requires { IsSoundScope scope.old }
    ensures found { FindsIn (sequential.body (map (sequential.statement_of setting.now) written.now) scope.old spec.top_spot 0 draft.old) result draft.new }
    ensures scope { OnOk result (scope.new ≡ scope.old) }
{
    let top = Spot {
        path: Items::new(alloc),
        parameters: Items::new(alloc),
        is_in_loop: false,
    };
    body(alloc, setting, scope, &top, written, draft)
}

/// The declarations and the statements of a process.
fn declared_statements(
    alloc: Global,
    setting: &Setting<'_>,
    scope: &mut Scope,
    written: &Written,
    read: &mut DeclarativePart,
) -> Result<Part<Items<Statement>>, AllocError>
    requires { IsSoundScope scope.old }
    ensures found { FindsIn (statements_of setting.now (fold (spec.process_declaration setting.now.texts) (declared_at scope.old read.old) written.now.declarations) written.now.body) result read.new.draft }
    ensures fine { OnOk result (fine_part read.new.is_fine ≡ (fold (spec.process_declaration setting.now.texts) (declared_at scope.old read.old) written.now.declarations).fine) }
    ensures outer { OnOk result (scope.new.outer ≡ scope.old.outer) }
{
    let declarations = written.declarations.as_slice();
    process_declarations(alloc, setting.names(), declarations, scope, read)?;
    let body = written.body.as_slice();
    statements(alloc, setting, scope, body, &mut read.draft)
}

/// The process behind its sensitivity list.
fn process_behind(
    alloc: Global,
    setting: &Setting<'_>,
    scope: &mut Scope,
    written: &Written,
    signals: Part<Option<Items<SignalName>>>,
    read: &mut DeclarativePart,
) -> Result<Part<Process>, AllocError>
    requires { IsSoundScope scope.old }
    ensures found { Finds (behind_signals setting.now (declared_at scope.old read.old) written.now signals) result read.new.draft.notes }
    ensures outer { OnOk result (scope.new.outer ≡ scope.old.outer) }
{
    let signals = Held::new(signals);
    let all = declared_statements(alloc, setting, scope, written, read)?;
    process_part(alloc, read, signals.into_inner(), all)
}

/// The same with the notes outside the draft.
fn process_noted(
    alloc: Global,
    setting: &Setting<'_>,
    scope: &mut Scope,
    written: &Written,
    signals: Part<Option<Items<SignalName>>>,
    notes: &mut Notes,
) -> Result<Part<Process>, AllocError>
    requires { IsSoundScope scope.old }
    ensures found { Finds (behind_signals setting.now (beginning scope.old notes.old) written.now signals) result notes.new }
    ensures outer { OnOk result (scope.new.outer ≡ scope.old.outer) }
{
    let mut read = DeclarativePart::new(alloc, mem::replace(notes, no_notes(alloc)));
    let process = process_behind(alloc, setting, scope, written, signals, &mut read)?;
    mem::swap(notes, &mut read.draft.notes);
    Ok(process)
}

/// Reads a process in its region, which declares nothing yet.
pub fn in_region(
    alloc: Global,
    setting: &Setting<'_>,
    scope: &mut Scope,
    written: &Written,
    notes: &mut Notes,
) -> Result<Part<Process>, AllocError>
    requires { IsSoundScope scope.old }
    ensures found { Finds (in_region setting.now scope.old written.now notes.old) result notes.new }
    ensures outer { OnOk result (scope.new.outer ≡ scope.old.outer) }
{
    let names = &written.sensitivity;
    let signals = listened(alloc, setting, scope, names, notes)?;
    process_noted(alloc, setting, scope, written, signals, notes)
}
