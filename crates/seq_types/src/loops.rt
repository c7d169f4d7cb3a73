//! Loops and cases behind what they hold.
ghost use Rattle.std.specs.Prelude.{◌≡◌, IfOk, None};
ghost use Rattle.elab_meaning.specs.Parts as parts;
ghost use Rattle.elab_meaning.specs.Parts.{judged};
ghost use Rattle.elab_meaning.specs.Subtypes as subtypes;
ghost use Rattle.unit_meaning.specs.Settings.{given};
ghost use Rattle.unit_meaning.specs.Sequential as spec;
ghost use Rattle.expr_types.specs.Known.{Finds, IsSoundScope};
ghost use Rattle.seq_types.specs.Parts.{alternative_since, for_bounds};

use ams_tree::{Direction as Written, Range};
use ams_value::ValueType;
use case_types::{is_covered, values_since};
use elab_meaning::{Notes, Part, Typed};
use flat_expr::{Alternative, Branch, Direction, FlatExpr, Statement};
use held_value::Held;
use name_scope::{Kind, Scope};
use sqlite_items::Items;
use statement_parts::{RUNNING, Setting, both, must_be};
use std::alloc::{AllocError, Global};
use unit_meaning::Seen;

pub fn made_branch(condition: Part<FlatExpr>, body: Part<Items<Statement>>) -> Part<Branch>
    ensures { result ≡ parts.both spec.made_branch condition body }
{
    match both(condition, body) {
        Part::Kept((condition, body)) => Part::Kept(Branch { condition, body }),
        Part::Wrong => Part::Wrong,
        Part::Hidden => Part::Hidden,
    }
}

pub fn made_if(branches: Part<Items<Branch>>, last: Part<Items<Statement>>) -> Part<Statement>
    ensures { result ≡ parts.both spec.made_if branches last }
{
    match both(branches, last) {
        Part::Kept((branches, last)) => Part::Kept(Statement::If(branches, last)),
        Part::Wrong => Part::Wrong,
        Part::Hidden => Part::Hidden,
    }
}

/// The type of the expression of a case, where that keeps the rules.
pub fn kind_known(expr: &Part<Typed>) -> Option<Kind>
    ensures { result ≡ spec.kind_known expr.now }
{
    match expr {
        Part::Kept(expr) => Some(expr.kind),
        _ => None,
    }
}

/// A case, in which all values of the type stand, or others.
pub fn made_case(
    setting: &Setting<'_>,
    seen: &Seen,
    expr: Part<Typed>,
    alternatives: Part<Items<Alternative>>,
) -> Part<Statement>
    ensures { result ≡ parts.both (spec.made_case setting.now seen.now) expr alternatives }
{
    match both(expr, alternatives) {
        Part::Kept((expr, alternatives)) => {
            if is_covered(setting.enumerations(), expr.kind, seen) {
                Part::Kept(Statement::Case(expr.expr, alternatives))
            } else {
                drop(expr);
                drop(alternatives);
                Part::Wrong
            }
        }
        Part::Wrong => Part::Wrong,
        Part::Hidden => Part::Hidden,
    }
}

/// An alternative, behind what was seen before it.
pub fn made_alternative(
    alloc: Global,
    before: usize,
    had_others: bool,
    seen: &Seen,
    fine: Part<bool>,
    body: Part<Items<Statement>>,
) -> Result<Part<Alternative>, AllocError>
    ensures { IfOk result (λ made. made ≡ parts.both (alternative_since before had_others seen.now) fine body) }
{
    match both(fine, body) {
        Part::Kept((_, body)) => {
            let body = Held::new(body);
            let choices = values_since(alloc, before, seen)?;
            Ok(Part::Kept(Alternative {
                choices,
                others: seen.others && !had_others,
                body: body.into_inner(),
            }))
        }
        Part::Wrong => Ok(Part::Wrong),
        Part::Hidden => Ok(Part::Hidden),
    }
}

pub fn made_loop(body: Part<Items<Statement>>) -> Part<Statement>
    ensures { result ≡ judged (spec.made_loop None) body }
{
    match body {
        Part::Kept(body) => Part::Kept(Statement::Loop(None, body)),
        Part::Wrong => Part::Wrong,
        Part::Hidden => Part::Hidden,
    }
}

fn given(condition: Part<FlatExpr>) -> Part<Option<FlatExpr>>
    ensures { result ≡ judged given condition }
{
    match condition {
        Part::Kept(condition) => Part::Kept(Some(condition)),
        Part::Wrong => Part::Wrong,
        Part::Hidden => Part::Hidden,
    }
}

pub fn made_while(condition: Part<FlatExpr>, body: Part<Items<Statement>>) -> Part<Statement>
    ensures { result ≡ parts.both spec.made_loop (judged given condition) body }
{
    match both(given(condition), body) {
        Part::Kept((condition, body)) => Part::Kept(Statement::Loop(condition, body)),
        Part::Wrong => Part::Wrong,
        Part::Hidden => Part::Hidden,
    }
}

fn direction_of(direction: Written) -> Direction
    ensures { result ≡ subtypes.direction_of direction }
{
    match direction {
        Written::To => Direction::To,
        Written::Downto => Direction::Downto,
    }
}

pub fn made_for(
    parameter: u32,
    direction: Written,
    bounds: Part<(FlatExpr, FlatExpr)>,
    body: Part<Items<Statement>>,
) -> Part<Statement>
    ensures { result ≡ parts.both (spec.made_for parameter direction) bounds body }
{
    match both(bounds, body) {
        Part::Kept(((left, right), body)) => {
            let direction = direction_of(direction);
            Part::Kept(Statement::For(parameter, left, direction, right, body))
        }
        Part::Wrong => Part::Wrong,
        Part::Hidden => Part::Hidden,
    }
}

/// The bounds of a loop's parameter, which are of INTEGER.
pub fn for_bounds(
    alloc: Global,
    setting: &Setting<'_>,
    scope: &Scope,
    range: &Range,
    notes: &mut Notes,
) -> Result<Part<(FlatExpr, FlatExpr)>, AllocError>
    requires { IsSoundScope scope.now }
    ensures { Finds (for_bounds setting.now scope.now range.now notes.old) result notes.new }
{
    let kind = Kind::Of(ValueType::Integer);
    let left = must_be(alloc, setting, scope, RUNNING, kind, &range.left, notes)?;
    let right = must_be(alloc, setting, scope, RUNNING, kind, &range.right, notes)?;
    Ok(both(left, right))
}
