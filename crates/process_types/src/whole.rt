//! Processes (IEEE 1076, 11.3).
ghost use Rattle.std.specs.Prelude.{◌≡◌, OnOk};
ghost use Rattle.name_scope.specs.Scopes.{inside};
ghost use Rattle.unit_meaning.specs.Processes as spec;
ghost use Rattle.expr_types.specs.Known.{Finds, IsSoundScope};
ghost use Rattle.process_types.specs.Regions.{ended, in_region};

use crate::region::in_region;
use ams_token::Place;
use ams_tree::{Name, Process as Written};
use elab_meaning::{Cause, Notes, Part};
use expr_types::note;
use flat_design::Process;
use held_value::Held;
use name_scope::Scope;
use statement_parts::{Setting, finish};
use std::alloc::{AllocError, Global};

/// Notes a name behind `end process` that isn't the label.
fn check_end(label: &Option<Name>, end: &Option<Name>, notes: &mut Notes) -> Result<(), AllocError>
    ensures { OnOk result (notes.new ≡ spec.end_name label.now end.now notes.old) }
{
    match (label, end) {
        (_, None) => Ok(()),
        (None, Some(end)) => note(notes, end.place, Cause::WrongType),
        (Some(label), Some(end)) => {
            if label.number == end.number {
                Ok(())
            } else {
                note(notes, end.place, Cause::WrongType)
            }
        }
    }
}

/// Begins the region of a process.
#[tactic(auto, using(start_scope::proofs::Inside::inside_sound))]
fn enter(alloc: Global, scope: &mut Scope) -> Result<(), AllocError>
    requires { IsSoundScope scope.old }
    ensures region { OnOk result (scope.new ≡ inside scope.old) }
    ensures sound { OnOk result (IsSoundScope scope.new) }
{
    scope.enter(alloc)
}

/// Reads a process in a region of its own, without the name behind its end.
fn region(
    alloc: Global,
    setting: &Setting<'_>,
    scope: &mut Scope,
    written: &Written,
    notes: &mut Notes,
) -> Result<Part<Process>, AllocError>
    requires { IsSoundScope scope.old }
    ensures found { Finds (in_region setting.now (inside scope.old) written.now notes.old) result notes.new }
    ensures scope { OnOk result (scope.new ≡ scope.old) }
{
    enter(alloc, scope)?;
    let process = in_region(alloc, setting, scope, written, notes)?;
    scope.leave();
    Ok(process)
}

/// Notes the process that breaks a rule itself, and then a wrong name behind its end.
fn end(
    place: Place,
    label: &Option<Name>,
    name: &Option<Name>,
    process: Part<Process>,
    notes: &mut Notes,
) -> Result<Part<Process>, AllocError>
    ensures { Finds (ended place label.now name.now (notes.old, process)) result notes.new }
{
    let process = Held::new(finish(place, process, notes)?);
    check_end(label, name, notes)?;
    Ok(process.into_inner())
}

/// Reads a process: its sensitivity list, its declarations in a region of their own, its statements, and the name behind its
/// end, which is the label's.
pub fn process(
    alloc: Global,
    setting: &Setting<'_>,
    scope: &mut Scope,
    label: &Option<Name>,
    written: &Written,
    notes: &mut Notes,
) -> Result<Part<Process>, AllocError>
    requires { IsSoundScope scope.old }
    ensures found { Finds (spec.process setting.now scope.old label.now written.now notes.old) result notes.new }
    ensures scope { OnOk result (scope.new ≡ scope.old) }
{
    let process = region(alloc, setting, scope, written, notes)?;
    end(written.place, label, &written.end, process, notes)
}
