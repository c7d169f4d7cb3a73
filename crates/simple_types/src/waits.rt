//! Wait statements (IEEE 1076, 10.2).
ghost use Rattle.std.specs.Prelude.{◌≡◌, IfOk};
ghost use Rattle.elab_meaning.specs.Parts as parts;
ghost use Rattle.unit_meaning.specs.Sequential as spec;
ghost use Rattle.expr_types.specs.Known.{IsSoundScope};
ghost use Rattle.simple_types.specs.Drafts.{FindsIn};

use crate::drafts::number_of;
use ams_tree::Expr;
use ams_value::ValueType;
use bare_types::{once, sensitivity, signals_in_some};
use elab_meaning::Part;
use flat_expr::{FlatExpr, SignalName, Statement};
use name_scope::{Kind, Scope};
use sqlite_items::Items;
use statement_parts::{RUNNING, Setting, both, condition, may_be};
use std::alloc::{AllocError, Global};
use unit_meaning::Draft;

/// Without names the signals of the condition are waited for.
fn waited_for(
    alloc: Global,
    names: &[Expr],
    all: Items<SignalName>,
    until: &Option<FlatExpr>,
) -> Result<Items<SignalName>, AllocError>
    ensures { IfOk result (λ signals. signals ≡ spec.waited_for names.now all until.now) }
{
    match names {
        [] => {
            drop(all);
            let signals = signals_in_some(alloc, until)?;
            once(alloc, signals.as_slice())
        }
        _ => Ok(all),
    }
}

fn waiting(
    alloc: Global,
    number: u32,
    names: &[Expr],
    all: Part<Items<SignalName>>,
    behind: Part<(Option<FlatExpr>, Option<FlatExpr>)>,
) -> Result<Part<Statement>, AllocError>
    ensures { IfOk result (λ made. made ≡ parts.both (spec.waiting number names.now) all behind) }
{
    match both(all, behind) {
        Part::Kept((all, (until, time))) => {
            let signals = waited_for(alloc, names, all, &until)?;
            Ok(Part::Kept(Statement::Wait(number, signals, until, time)))
        }
        Part::Wrong => Ok(Part::Wrong),
        Part::Hidden => Ok(Part::Hidden),
    }
}

/// Reads a wait statement, which gets the number behind those before it.
pub fn wait_parts(
    alloc: Global,
    setting: &Setting<'_>,
    scope: &Scope,
    names: &[Expr],
    until: &Option<Expr>,
    time: &Option<Expr>,
    draft: &mut Draft,
) -> Result<Part<Statement>, AllocError>
    requires { IsSoundScope scope.now }
    ensures { let found = spec.wait_statement setting.now scope.now names.now until.now time.now draft.old in FindsIn (spec.with_notes found.0 draft.old, found.1) result draft.new }
{
    let number = number_of(draft.waits.len())?;
    let all = sensitivity(alloc, setting, scope, names, &mut draft.notes)?;
    let until = condition(alloc, setting, scope, until, &mut draft.notes)?;
    let kind = Kind::Of(ValueType::Time);
    let time = may_be(alloc, setting, scope, RUNNING, kind, time, &mut draft.notes)?;
    waiting(alloc, number, names, all, both(until, time))
}
