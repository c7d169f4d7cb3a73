//! Simultaneous case statements (IEEE 1076.1, 15.3).
ghost use Rattle.std.specs.Prelude.{◌≡◌, ◌&&◌, not, OnOk};
ghost use Rattle.elab_meaning.specs.Expressions.{static_in};
ghost use Rattle.elab_meaning.specs.Parts as parts;
ghost use Rattle.unit_meaning.specs.Cases as cases;
ghost use Rattle.unit_meaning.specs.Sequential.{kind_known};
ghost use Rattle.unit_meaning.specs.Settings.{equating, finished};
ghost use Rattle.unit_meaning.specs.Simultaneous as spec;
ghost use Rattle.expr_types.specs.Known.{Finds, IsSoundScope};
ghost use Rattle.simultaneous_types.specs.Arms.{arm_with};

use ams_token::Place;
use ams_tree::{Expr, SimultaneousAlternative};
use ams_value::Val;
use case_types::{is_covered, nothing_seen, read_choices, values_since};
use elab_meaning::{Context, Notes, Part, Surrounding, Typed};
use equation_types::{CHOOSING, case_lengths, compare, first_length, pairs};
use flat_design::{CaseArm, Choice, Equation, Pair, Selection};
use held_value::Held;
use name_scope::{Kind, Scope};
use sqlite_items::Items;
use statement_parts::{Setting, both, finish, put, typed};
use std::alloc::{AllocError, Global};
use unit_meaning::Seen;

/// In a choice of a simultaneous case.
const CHOICE: Context = Context {
    surrounding: Surrounding::Equation,
    is_static: true,
};

fn arm_of(
    fine: Part<bool>,
    choices: Items<Val>,
    others: bool,
    pairs: Part<Items<Pair>>,
) -> Part<CaseArm>
    ensures { result ≡ parts.both (arm_with choices others) fine pairs }
{
    match both(fine, pairs) {
        Part::Kept((_, pairs)) => Part::Kept(CaseArm {
            choices,
            others,
            pairs,
        }),
        Part::Wrong => Part::Wrong,
        Part::Hidden => Part::Hidden,
    }
}

fn others_since(had_others: bool, seen: &Seen) -> bool
    ensures { result ≡ (seen.now.others && not had_others) }
{
    seen.others && !had_others
}

fn case_arm(
    alloc: Global,
    setting: &Setting<'_>,
    scope: &Scope,
    kind: &Option<Kind>,
    alternative: &SimultaneousAlternative,
    seen: &mut Seen,
    notes: &mut Notes,
) -> Result<Part<CaseArm>, AllocError>
    requires { IsSoundScope scope.now }
    ensures found { let c = cases.choices setting.now scope.now (static_in equating) kind.now seen.old alternative.now.choices notes.old in let all = spec.pairs setting.now scope.now alternative.now.equations c.0 in Finds (all.0, parts.both (spec.case_arm_of seen.old c.1.0) c.1.1 all.1) result notes.new }
    ensures seen { OnOk result (seen.new ≡ (cases.choices setting.now scope.now (static_in equating) kind.now seen.old alternative.now.choices notes.old).1.0) }
{
    let first = seen.values.len();
    let had_others = seen.others;
    let written = alternative.choices.as_slice();
    let fine = read_choices(alloc, setting, scope, CHOICE, kind, written, seen, notes)?;
    let equations = alternative.equations.as_slice();
    let pairs = Held::new(pairs(alloc, setting, scope, equations, notes)?);
    let choices = values_since(alloc, first, seen)?;
    let others = others_since(had_others, seen);
    Ok(arm_of(fine, choices, others, pairs.into_inner()))
}

#[tactic(auto, using(statement_parts::proofs::Puts::put_ahead, statement_parts::proofs::Puts::put_none, statement_parts::proofs::Puts::put_first))]
fn case_arms(
    alloc: Global,
    setting: &Setting<'_>,
    scope: &Scope,
    kind: &Option<Kind>,
    alternatives: &[SimultaneousAlternative],
    seen: &mut Seen,
    notes: &mut Notes,
) -> Result<Part<Items<CaseArm>>, AllocError>
    requires { IsSoundScope scope.now }
    ensures found { let arms = spec.case_arms setting.now scope.now kind.now seen.old alternatives.now notes.old in Finds (arms.0, arms.1.1) result notes.new }
    ensures seen { OnOk result (seen.new ≡ (spec.case_arms setting.now scope.now kind.now seen.old alternatives.now notes.old).1.0) }
{
    let mut all = Part::Kept(Items::new(alloc));
    for alternative in alternatives {
        let one = case_arm(alloc, setting, scope, kind, alternative, seen, notes)?;
        all = put(all, one)?;
    }
    Ok(all)
}

fn known_kind(part: &Part<Typed>) -> Option<Kind>
    ensures { result ≡ kind_known part.now }
{
    match part {
        Part::Kept(typed) => Some(typed.kind),
        Part::Wrong | Part::Hidden => None,
    }
}

fn covered_case(
    setting: &Setting<'_>,
    seen: &Seen,
    size: u32,
    selector: Typed,
    arms: Items<CaseArm>,
) -> Part<Equation>
    ensures { result ≡ spec.chosen_case setting.now seen.now size selector arms }
{
    if is_covered(setting.enumerations(), selector.kind, seen) {
        let selection = Selection::Case(selector.expr, arms);
        Part::Kept(Equation::Choice(Choice { selection, size }))
    } else {
        drop(selector);
        drop(arms);
        Part::Wrong
    }
}

fn chosen_case(
    setting: &Setting<'_>,
    seen: &Seen,
    size: u32,
    selector: Part<Typed>,
    arms: Part<Items<CaseArm>>,
) -> Part<Equation>
    ensures { result ≡ parts.both (spec.chosen_case setting.now seen.now size) selector arms }
{
    match both(selector, arms) {
        Part::Kept((selector, arms)) => covered_case(setting, seen, size, selector, arms),
        Part::Wrong => Part::Wrong,
        Part::Hidden => Part::Hidden,
    }
}

/// Notes alternatives of different lengths, and a statement that breaks a rule itself.
fn finish_case(
    setting: &Setting<'_>,
    place: Place,
    lengths: &[usize],
    seen: &Seen,
    selector: Part<Typed>,
    arms: Part<Items<CaseArm>>,
    notes: &mut Notes,
) -> Result<Part<Equation>, AllocError>
    ensures { Finds (finished place (spec.compared place lengths.now notes.old, parts.both (spec.chosen_case setting.now seen.now (spec.first_length lengths.now)) selector arms)) result notes.new }
{
    let selector = Held::new(selector);
    let arms = Held::new(arms);
    compare(place, lengths, notes)?;
    let Ok(size) = u32::try_from(first_length(lengths)) else {
        return Err(AllocError);
    };
    let whole = chosen_case(
        setting,
        seen,
        size,
        selector.into_inner(),
        arms.into_inner(),
    );
    finish(place, whole, notes)
}

/// The alternatives behind the expression.
fn case_behind(
    alloc: Global,
    setting: &Setting<'_>,
    scope: &Scope,
    place: Place,
    selector: Part<Typed>,
    alternatives: &[SimultaneousAlternative],
    notes: &mut Notes,
) -> Result<Part<Equation>, AllocError>
    requires { IsSoundScope scope.now }
    ensures { let arms = spec.case_arms setting.now scope.now (kind_known selector) cases.nothing_seen alternatives.now notes.old in Finds (finished place (spec.compared place (spec.case_lengths alternatives.now) arms.0, parts.both (spec.chosen_case setting.now arms.1.0 (spec.first_length (spec.case_lengths alternatives.now))) selector arms.1.1)) result notes.new }
{
    let kind = known_kind(&selector);
    let selector = Held::new(selector);
    let mut seen = nothing_seen(alloc);
    let arms = case_arms(alloc, setting, scope, &kind, alternatives, &mut seen, notes)?;
    let arms = Held::new(arms);
    let lengths = case_lengths(alloc, alternatives)?;
    let (selector, arms) = (selector.into_inner(), arms.into_inner());
    finish_case(
        setting,
        place,
        lengths.as_slice(),
        &seen,
        selector,
        arms,
        notes,
    )
}

/// A simultaneous case.
pub fn case_statement(
    alloc: Global,
    setting: &Setting<'_>,
    scope: &Scope,
    place: Place,
    expr: &Expr,
    alternatives: &[SimultaneousAlternative],
    notes: &mut Notes,
) -> Result<Part<Equation>, AllocError>
    requires { IsSoundScope scope.now }
    ensures { Finds (spec.case_statement setting.now scope.now place expr.now alternatives.now notes.old) result notes.new }
{
    let selector = typed(alloc, setting, scope, CHOOSING, expr, notes)?;
    case_behind(alloc, setting, scope, place, selector, alternatives, notes)
}
