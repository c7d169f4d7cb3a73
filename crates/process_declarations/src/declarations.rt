//! Declarations of a process (IEEE 1076, 11.3).
ghost use Rattle.std.specs.Prelude.{◌≡◌, Some, OnOk};
ghost use Rattle.std.specs.List.{fold};
ghost use Rattle.elab_meaning.specs.Subtypes.{valued};
ghost use Rattle.unit_meaning.specs.Processes as spec;
ghost use Rattle.expr_types.specs.Known.{IsSoundScope};
ghost use Rattle.process_declarations.specs.Parts.{declared_at};

use crate::names::{declare_constants, declare_variables};
use crate::part::DeclarativePart;
use ams_token::{Names, Place};
use ams_tree::{Expr, Name, ProcessDeclaration, SubtypeIndication};
use name_scope::Scope;
use std::alloc::{AllocError, Global};
use subtype_types::{valued, written_valued};

fn variables(
    alloc: Global,
    names: &Names,
    place: Place,
    declared: &[Name],
    indication: &SubtypeIndication,
    expr: &Option<Expr>,
    scope: &mut Scope,
    read: &mut DeclarativePart,
) -> Result<(), AllocError>
    requires { IsSoundScope scope.old }
    ensures ok { OnOk result (declared_at scope.new read.new ≡ spec.declaring_each (spec.variable names.now) place declared.now (valued names.now scope.old indication.now expr.now read.old.draft.notes) (declared_at scope.old read.old)) }
    ensures sound { OnOk result (IsSoundScope scope.new) }
{
    match valued(alloc, names, scope, indication, expr, &mut read.draft.notes) {
        Ok(part) => declare_variables(alloc, names, place, declared, &part, scope, read),
        Err(error) => Err(error),
    }
}

fn constants(
    alloc: Global,
    names: &Names,
    place: Place,
    declared: &[Name],
    indication: &SubtypeIndication,
    expr: &Expr,
    scope: &mut Scope,
    read: &mut DeclarativePart,
) -> Result<(), AllocError>
    requires { IsSoundScope scope.old }
    ensures ok { OnOk result (declared_at scope.new read.new ≡ spec.declaring_each spec.constant place declared.now (valued names.now scope.old indication.now (Some expr.now) read.old.draft.notes) (declared_at scope.old read.old)) }
    ensures sound { OnOk result (IsSoundScope scope.new) }
{
    match written_valued(alloc, names, scope, indication, expr, &mut read.draft.notes) {
        Ok(part) => declare_constants(place, declared, &part, scope, read),
        Err(error) => Err(error),
    }
}

/// Reads a declaration behind those that are read.
fn declaration(
    alloc: Global,
    names: &Names,
    written: &ProcessDeclaration,
    scope: &mut Scope,
    read: &mut DeclarativePart,
) -> Result<(), AllocError>
    requires { IsSoundScope scope.old }
    ensures ok { OnOk result (declared_at scope.new read.new ≡ spec.process_declaration names.now (declared_at scope.old read.old) written.now) }
    ensures sound { OnOk result (IsSoundScope scope.new) }
{
    match written {
        ProcessDeclaration::Variable(place, list, indication, expr) => {
            let list = list.as_slice();
            variables(alloc, names, *place, list, indication, expr, scope, read)
        }
        ProcessDeclaration::Constant(place, list, indication, expr) => {
            let list = list.as_slice();
            constants(alloc, names, *place, list, indication, expr, scope, read)
        }
    }
}

/// Reads the declarations of a process in their order, in its region.
pub fn process_declarations(
    alloc: Global,
    names: &Names,
    all: &[ProcessDeclaration],
    scope: &mut Scope,
    read: &mut DeclarativePart,
) -> Result<(), AllocError>
    requires { IsSoundScope scope.old }
    ensures ok { OnOk result (declared_at scope.new read.new ≡ fold (spec.process_declaration names.now) (declared_at scope.old read.old) all.now) }
    ensures sound { OnOk result (IsSoundScope scope.new) }
    ensures outer { OnOk result (scope.new.outer ≡ scope.old.outer) }
{
    for written in all {
        declaration(alloc, names, written, scope, read)?;
    }
    Ok(())
}
