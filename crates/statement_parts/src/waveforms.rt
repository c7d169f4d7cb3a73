//! Signal assignments (IEEE 1076, 10.5.2).
ghost use Rattle.std.specs.Prelude.{◌≡◌, Some};
ghost use Rattle.ams_tree.specs.declared.sequential.DelayMechanism.TheVariants as written;
ghost use Rattle.elab_meaning.specs.Parts as parts;
ghost use Rattle.elab_meaning.specs.Parts.{judged};
ghost use Rattle.unit_meaning.specs.Settings.{running, typed};
ghost use Rattle.unit_meaning.specs.Waveforms as spec;
ghost use Rattle.expr_types.specs.Known.{Finds, IsSoundScope};

use crate::expressions::{RUNNING, may_be, must_be, typed};
use crate::parts::{both, put};
use crate::setting::Setting;
use crate::targets::{range_part, suited};
use ams_token::Place;
use ams_tree::{DelayMechanism as Written, Expr, WaveformElement};
use ams_value::ValueType;
use elab_meaning::{Notes, Part};
use flat_expr::{DelayMechanism, FlatExpr, Statement, WaveElement};
use name_scope::{Kind, Scope, Subtype};
use sqlite_items::Items;
use std::alloc::{AllocError, Global};

/// With a rejection limit.
fn rejecting(
    alloc: Global,
    setting: &Setting<'_>,
    scope: &Scope,
    place: Place,
    limit: &Expr,
    notes: &mut Notes,
) -> Result<Part<DelayMechanism>, AllocError>
    requires { IsSoundScope scope.now }
    ensures { Finds (spec.mechanism setting.now scope.now (Some (written.Reject place limit.now)) notes.old) result notes.new }
{
    let kind = Kind::Of(ValueType::Time);
    match must_be(alloc, setting, scope, RUNNING, kind, limit, notes)? {
        Part::Kept(limit) => Ok(Part::Kept(DelayMechanism::Inertial(Some(limit)))),
        Part::Wrong => Ok(Part::Wrong),
        Part::Hidden => Ok(Part::Hidden),
    }
}

/// How the signal takes its new values.
pub fn mechanism(
    alloc: Global,
    setting: &Setting<'_>,
    scope: &Scope,
    delay: &Option<Written>,
    notes: &mut Notes,
) -> Result<Part<DelayMechanism>, AllocError>
    requires { IsSoundScope scope.now }
    ensures { Finds (spec.mechanism setting.now scope.now delay.now notes.old) result notes.new }
{
    match delay {
        Some(Written::Transport(_)) => Ok(Part::Kept(DelayMechanism::Transport)),
        Some(Written::Reject(place, limit)) => rejecting(
            alloc, setting, scope, *place, limit, notes,
        ),
        _ => Ok(Part::Kept(DelayMechanism::Inertial(None))),
    }
}

/// A value of a waveform.
fn element_value(
    alloc: Global,
    setting: &Setting<'_>,
    scope: &Scope,
    to: &Part<(u32, Subtype)>,
    expr: &Expr,
    notes: &mut Notes,
) -> Result<Part<FlatExpr>, AllocError>
    requires { IsSoundScope scope.now }
    ensures { let value = typed setting.now scope.now running expr.now notes.old in Finds (value.0, judged (spec.suited to.now) value.1) result notes.new }
{
    match typed(alloc, setting, scope, RUNNING, expr, notes)? {
        Part::Kept(typed) => Ok(suited(to, typed)),
        Part::Wrong => Ok(Part::Wrong),
        Part::Hidden => Ok(Part::Hidden),
    }
}

fn element(
    alloc: Global,
    setting: &Setting<'_>,
    scope: &Scope,
    to: &Part<(u32, Subtype)>,
    element: &WaveformElement,
    notes: &mut Notes,
) -> Result<Part<WaveElement>, AllocError>
    requires { IsSoundScope scope.now }
    ensures { Finds (spec.element setting.now scope.now to.now element.now notes.old) result notes.new }
{
    let value = element_value(alloc, setting, scope, to, &element.value, notes)?;
    let kind = Kind::Of(ValueType::Time);
    let after = may_be(alloc, setting, scope, RUNNING, kind, &element.after, notes)?;
    match both(value, after) {
        Part::Kept((value, delay)) => Ok(Part::Kept(WaveElement { value, delay })),
        Part::Wrong => Ok(Part::Wrong),
        Part::Hidden => Ok(Part::Hidden),
    }
}

/// The new values of a signal.
#[tactic(auto, using(crate::proofs::Puts::put_ahead, crate::proofs::Puts::put_none, crate::proofs::Puts::put_first))]
pub fn waveform(
    alloc: Global,
    setting: &Setting<'_>,
    scope: &Scope,
    to: &Part<(u32, Subtype)>,
    elements: &[WaveformElement],
    notes: &mut Notes,
) -> Result<Part<Items<WaveElement>>, AllocError>
    requires { IsSoundScope scope.now }
    ensures { Finds (spec.waveform setting.now scope.now to.now elements.now notes.old) result notes.new }
{
    let mut all = Part::Kept(Items::new(alloc));
    for written in elements {
        let one = element(alloc, setting, scope, to, written, notes)?;
        all = put(all, one)?;
    }
    Ok(all)
}

fn assigning(
    to: &Part<(u32, Subtype)>,
    made: Part<(DelayMechanism, Items<WaveElement>)>,
) -> Part<Statement>
    ensures { result ≡ parts.both spec.assigning to.now made }
{
    match to {
        Part::Kept((signal, subtype)) => match made {
            Part::Kept((mechanism, elements)) => {
                let range = range_part(&subtype.constraint);
                Part::Kept(Statement::SignalAssignment(*signal, range, mechanism, elements))
            }
            Part::Wrong => Part::Wrong,
            Part::Hidden => Part::Hidden,
        },
        Part::Wrong => match made {
            Part::Hidden => Part::Hidden,
            _ => Part::Wrong,
        },
        Part::Hidden => Part::Hidden,
    }
}

/// The assignment of a waveform to a target, with its delay mechanism.
pub fn assignment(
    alloc: Global,
    setting: &Setting<'_>,
    scope: &Scope,
    to: &Part<(u32, Subtype)>,
    delay: &Option<Written>,
    elements: &[WaveformElement],
    notes: &mut Notes,
) -> Result<Part<Statement>, AllocError>
    requires { IsSoundScope scope.now }
    ensures { Finds (spec.assignment setting.now scope.now to.now delay.now elements.now notes.old) result notes.new }
{
    let mechanism = mechanism(alloc, setting, scope, delay, notes)?;
    let elements = waveform(alloc, setting, scope, to, elements, notes)?;
    Ok(assigning(to, both(mechanism, elements)))
}
