//! The names of a declaration.
ghost use Rattle.std.specs.Prelude.{◌≡◌, OnOk};
ghost use Rattle.std.specs.List.{fold};
ghost use Rattle.elab_meaning.specs.Declarations.{constant_of};
ghost use Rattle.name_scope.specs.declared.thing.Thing.TheVariants as thing;
ghost use Rattle.unit_meaning.specs.Processes as spec;
ghost use Rattle.expr_types.specs.Known.{IsSoundScope, IsSoundThing};
ghost use Rattle.subtype_types.specs.Sound.{IsSoundValued, OnKept};
ghost use Rattle.process_declarations.specs.Parts.{declared_at};

use crate::part::DeclarativePart;
use ams_token::{Names, Place};
use ams_tree::Name;
use decl_names::{constraint_of, number_behind, value_or_leftmost};
use elab_meaning::{Cause, Part, Valued};
use expr_types::{note, text_of, value_type};
use flat_design::Variable;
use name_scope::{Kind, Scope, Thing};
use sqlite_items::Items;
use std::alloc::{AllocError, Global};
use unit_meaning::Draft;

/// Declares a name in the region of the process. One that the region has already keeps what it stands for, and is noted.
#[tactic(auto, using(decl_names::proofs::Sound::still_sound))]
fn declare(
    name: Name,
    thing: Thing,
    scope: &mut Scope,
    read: &mut DeclarativePart,
) -> Result<(), AllocError>
    requires scope { IsSoundScope scope.old }
    requires thing { IsSoundThing thing }
    ensures ok { OnOk result (declared_at scope.new read.new ≡ spec.named thing name (declared_at scope.old read.old)) }
    ensures sound { OnOk result (IsSoundScope scope.new) }
{
    if scope.declare(name.number, thing)? {
        Ok(())
    } else {
        let notes = &mut read.draft.notes;
        note(notes, name.place, Cause::Duplicate(name.number))
    }
}

/// Adds a variable to those of the process.
fn add_variable(
    alloc: Global,
    names: &Names,
    valued: &Valued,
    name: Name,
    draft: &mut Draft,
) -> Result<(), AllocError>
    ensures { OnOk result (draft.new ≡ spec.with_variable names.now valued.now name draft.old) }
{
    let text = Items::from_slice(alloc, text_of(names, name.number).as_bytes())?;
    draft.variables.push(Variable {
        name: text,
        kind: value_type(valued.subtype.kind),
        constraint: constraint_of(&valued.subtype.constraint),
        initial: value_or_leftmost(valued),
        is_parameter: false,
    })
}

fn variable(
    alloc: Global,
    names: &Names,
    valued: &Valued,
    name: Name,
    scope: &mut Scope,
    read: &mut DeclarativePart,
) -> Result<(), AllocError>
    requires { IsSoundScope scope.old }
    ensures ok { OnOk result (declared_at scope.new read.new ≡ spec.variable names.now valued.now (declared_at scope.old read.old) name) }
    ensures sound { OnOk result (IsSoundScope scope.new) }
{
    let number = number_behind(read.draft.variables.len())?;
    add_variable(alloc, names, valued, name, &mut read.draft)?;
    declare(name, Thing::Variable(number, valued.subtype), scope, read)
}

/// A constant; where the length of a vector follows from generics, so does its value.
fn constant_of(valued: &Valued) -> Thing
    requires { IsSoundValued valued.now }
    ensures thing { result ≡ constant_of valued.now }
    ensures sound { IsSoundThing result }
{
    match valued.subtype.kind {
        Kind::Of(_) => Thing::Constant(valued.subtype, valued.value),
        Kind::Vector => Thing::Constant(valued.subtype, None),
    }
}

fn each_variable(
    alloc: Global,
    names: &Names,
    valued: &Valued,
    declared: &[Name],
    scope: &mut Scope,
    read: &mut DeclarativePart,
) -> Result<(), AllocError>
    requires { IsSoundScope scope.old }
    ensures ok { OnOk result (declared_at scope.new read.new ≡ fold (spec.variable names.now valued.now) (declared_at scope.old read.old) declared.now) }
    ensures sound { OnOk result (IsSoundScope scope.new) }
{
    for name in declared {
        variable(alloc, names, valued, *name, scope, read)?;
    }
    Ok(())
}

fn each_constant(
    valued: &Valued,
    declared: &[Name],
    scope: &mut Scope,
    read: &mut DeclarativePart,
) -> Result<(), AllocError>
    requires scope { IsSoundScope scope.old }
    requires valued { IsSoundValued valued.now }
    ensures ok { OnOk result (declared_at scope.new read.new ≡ fold (spec.constant valued.now) (declared_at scope.old read.old) declared.now) }
    ensures sound { OnOk result (IsSoundScope scope.new) }
{
    for name in declared {
        declare(*name, constant_of(valued), scope, read)?;
    }
    Ok(())
}

/// The names of a declaration that breaks a rule: nothing more is said of them.
fn each_faulty(
    declared: &[Name],
    scope: &mut Scope,
    read: &mut DeclarativePart,
) -> Result<(), AllocError>
    requires { IsSoundScope scope.old }
    ensures ok { OnOk result (declared_at scope.new read.new ≡ fold spec.faulty (declared_at scope.old read.old) declared.now) }
    ensures sound { OnOk result (IsSoundScope scope.new) }
{
    for name in declared {
        declare(*name, Thing::Faulty, scope, read)?;
    }
    Ok(())
}

/// Declares the names of a declaration of variables.
pub fn declare_variables(
    alloc: Global,
    names: &Names,
    place: Place,
    declared: &[Name],
    part: &Part<Valued>,
    scope: &mut Scope,
    read: &mut DeclarativePart,
) -> Result<(), AllocError>
    requires { IsSoundScope scope.old }
    ensures ok { OnOk result (declared_at scope.new read.new ≡ spec.declaring_each (spec.variable names.now) place declared.now (read.old.draft.notes, part.now) (declared_at scope.old read.old)) }
    ensures sound { OnOk result (IsSoundScope scope.new) }
{
    read.add(place, part)?;
    match part {
        Part::Kept(valued) => each_variable(alloc, names, valued, declared, scope, read),
        Part::Wrong | Part::Hidden => each_faulty(declared, scope, read),
    }
}

/// Declares the names of a declaration of constants.
pub fn declare_constants(
    place: Place,
    declared: &[Name],
    part: &Part<Valued>,
    scope: &mut Scope,
    read: &mut DeclarativePart,
) -> Result<(), AllocError>
    requires scope { IsSoundScope scope.old }
    requires part { OnKept IsSoundValued part.now }
    ensures ok { OnOk result (declared_at scope.new read.new ≡ spec.declaring_each spec.constant place declared.now (read.old.draft.notes, part.now) (declared_at scope.old read.old)) }
    ensures sound { OnOk result (IsSoundScope scope.new) }
{
    read.add(place, part)?;
    match part {
        Part::Kept(valued) => each_constant(valued, declared, scope, read),
        Part::Wrong | Part::Hidden => each_faulty(declared, scope, read),
    }
}
