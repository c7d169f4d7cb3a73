//! Lists of associations (IEEE 1076, 6.5.7.1).
ghost use Rattle.std.specs.Prelude.{◌≡◌, ◌∷◌, ◌++◌, [], IfOk, OnOk};
ghost use Rattle.unit_meaning.specs.Associations as spec;
ghost use Rattle.association_types.specs.Rules as rules;
ghost use Rattle.expr_types.specs.Known.{Finds, IsSoundScope};
ghost use Rattle.instance_matches.specs.Sound.{AreSound};

use crate::generics::generic_actual;
use crate::ports::port_actual;
use ams_token::{Names, Place};
use ams_tree::{Association, Expr, Name};
use case_types::place_of;
use elab_meaning::Notes;
use formal_lists::{GenericFormals, PortFormals};
use name_scope::Scope;
use sqlite_items::Items;
use std::alloc::{AllocError, Global};
use unit_meaning::{Actual, Assigned};

fn number_of(name: Option<Name>) -> Option<u32>
    ensures { result ≡ spec.number_of name }
{
    match name {
        Some(name) => Some(name.number),
        None => None,
    }
}

/// The place of its first token.
fn association_place(formal: Option<Name>, place: Place) -> Place
    ensures { result ≡ spec.association_place formal place }
{
    match formal {
        Some(name) => name.place,
        None => place,
    }
}

fn add_assigned(
    place: Place,
    formal: Option<Name>,
    actual: &Actual,
    list: &mut Items<Assigned>,
) -> Result<(), AllocError>
    ensures { OnOk result (list.new ≡ list.old ++ spec.assigned place formal actual.now ∷ []) }
{
    list.push(Assigned {
        place,
        formal: number_of(formal),
        actual: *actual,
    })
}

fn add_open(
    formal: Option<Name>,
    place: Place,
    list: &mut Items<Assigned>,
) -> Result<(), AllocError>
    ensures { OnOk result (list.new ≡ list.old ++ rules.left_open formal place ∷ []) }
{
    let actual = Actual::Open;
    add_assigned(association_place(formal, place), formal, &actual, list)
}

#[tactic(auto, using(crate::proofs::Sound::sound_behind))]
fn add_generic_actual(
    alloc: Global,
    names: &Names,
    scope: &Scope,
    formals: &GenericFormals,
    at: usize,
    formal: Option<Name>,
    expr: &Expr,
    notes: &mut Notes,
    list: &mut Items<Assigned>,
) -> Result<(), AllocError>
    requires scope { IsSoundScope scope.now }
    requires list { AreSound list.old }
    ensures ok { OnOk result (rules.HasAdded (rules.one_actual (rules.generic_rule names.now scope.now) formals.now at formal expr.now notes.old) notes.new list.old list.new) }
    ensures sound { OnOk result (AreSound list.new) }
{
    let place = association_place(formal, place_of(expr));
    let named = formals.formal_at(at, formal);
    match generic_actual(alloc, names, scope, &named, place, expr, notes) {
        Ok(actual) => add_assigned(place, formal, &actual, list),
        Err(error) => Err(error),
    }
}

#[tactic(auto, using(crate::proofs::Sound::sound_behind))]
fn add_generic(
    alloc: Global,
    names: &Names,
    scope: &Scope,
    formals: &GenericFormals,
    at: usize,
    association: &Association,
    notes: &mut Notes,
    list: &mut Items<Assigned>,
) -> Result<(), AllocError>
    requires scope { IsSoundScope scope.now }
    requires list { AreSound list.old }
    ensures ok { OnOk result (rules.HasAdded (rules.one (rules.generic_rule names.now scope.now) formals.now at association.now notes.old) notes.new list.old list.new) }
    ensures sound { OnOk result (AreSound list.new) }
{
    match association {
        Association::Open(formal, place) => add_open(*formal, *place, list),
        Association::Actual(formal, expr) => {
            add_generic_actual(alloc, names, scope, formals, at, *formal, expr, notes, list)
        }
    }
}

/// Reads the associations of generics.
pub fn generic_associations(
    alloc: Global,
    names: &Names,
    scope: &Scope,
    formals: &GenericFormals,
    all: &[Association],
    notes: &mut Notes,
) -> Result<Items<Assigned>, AllocError>
    requires { IsSoundScope scope.now }
    ensures found { Finds (spec.associations (rules.generic_rule names.now scope.now) formals.now 0 all.now notes.old) result notes.new }
    ensures sound { IfOk result (λ list. AreSound list) }
{
    let mut list = Items::new(alloc);
    for (at, association) in all.iter().enumerate() {
        add_generic(
            alloc,
            names,
            scope,
            formals,
            at,
            association,
            notes,
            &mut list,
        )?;
    }
    Ok(list)
}

fn add_port_actual(
    alloc: Global,
    names: &Names,
    start: &Scope,
    scope: &Scope,
    formals: &PortFormals,
    at: usize,
    formal: Option<Name>,
    expr: &Expr,
    notes: &mut Notes,
    list: &mut Items<Assigned>,
) -> Result<(), AllocError>
    requires { IsSoundScope scope.now }
    ensures { OnOk result (rules.HasAdded (rules.one_actual (rules.port_rule names.now start.now scope.now) formals.now at formal expr.now notes.old) notes.new list.old list.new) }
{
    let place = association_place(formal, place_of(expr));
    let named = formals.formal_at(at, formal);
    match port_actual(alloc, names, start, scope, &named, expr, notes) {
        Ok(actual) => add_assigned(place, formal, &actual, list),
        Err(error) => Err(error),
    }
}

fn add_port(
    alloc: Global,
    names: &Names,
    start: &Scope,
    scope: &Scope,
    formals: &PortFormals,
    at: usize,
    association: &Association,
    notes: &mut Notes,
    list: &mut Items<Assigned>,
) -> Result<(), AllocError>
    requires { IsSoundScope scope.now }
    ensures { OnOk result (rules.HasAdded (rules.one (rules.port_rule names.now start.now scope.now) formals.now at association.now notes.old) notes.new list.old list.new) }
{
    match association {
        Association::Open(formal, place) => add_open(*formal, *place, list),
        Association::Actual(formal, expr) => {
            add_port_actual(
                alloc, names, start, scope, formals, at, *formal, expr, notes, list,
            )
        }
    }
}

/// Reads the associations of ports.
pub fn port_associations(
    alloc: Global,
    names: &Names,
    start: &Scope,
    scope: &Scope,
    formals: &PortFormals,
    all: &[Association],
    notes: &mut Notes,
) -> Result<Items<Assigned>, AllocError>
    requires { IsSoundScope scope.now }
    ensures { Finds (spec.associations (rules.port_rule names.now start.now scope.now) formals.now 0 all.now notes.old) result notes.new }
{
    let mut list = Items::new(alloc);
    for (at, association) in all.iter().enumerate() {
        add_port(
            alloc,
            names,
            start,
            scope,
            formals,
            at,
            association,
            notes,
            &mut list,
        )?;
    }
    Ok(list)
}
