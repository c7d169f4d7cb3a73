//! Sequential statements (IEEE 1076, clause 10).
ghost use Rattle.std.specs.Prelude.{◌≡◌, map, OnOk};
ghost use Rattle.ams_tree.specs.declared.sequential.Iteration.TheVariants as iteration;
ghost use Rattle.name_scope.specs.Scopes.{inside, with_name};
ghost use Rattle.name_scope.specs.declared.thing.Thing.TheVariants.{Parameter};
ghost use Rattle.unit_meaning.specs.Sequential as spec;
ghost use Rattle.expr_types.specs.Known.{IsSoundScope};
ghost use Rattle.seq_types.specs.Parts.{alternative_of, branch_of, else_parts, if_alone};
ghost use Rattle.simple_types.specs.Drafts.{FindsIn};

use crate::loops::{
    for_bounds, kind_known, made_alternative, made_branch, made_case, made_for, made_if, made_loop,
    made_while,
};
use ams_token::Place;
use ams_tree::{Alternative as CaseArm, Branch as IfArm, Expr, Iteration, Name, Range, Seq};
use ams_value::ValueType;
use case_types::{nothing_seen, read_choices, values_since};
use elab_meaning::{Context, Part, Surrounding};
use flat_expr::{Alternative, Branch, Statement};
use held_value::Held;
use name_scope::{Kind, Scope};
use simple_types::{
    add_parameter, assert_statement, break_statement, enter_loop, exit_statement, following,
    leave_loop, looping, next_statement, number_of, report_statement, signal_statement,
    variable_statement, wait_statement, way_to, within_loop,
};
use sqlite_items::Items;
use statement_parts::{RUNNING, Setting, finish, must_be, put, typed};
use std::alloc::{AllocError, Global};
use unit_meaning::{Draft, Seen, Spot};

/// A choice of a case is static.
const CHOOSING: Context = Context {
    surrounding: Surrounding::Process,
    is_static: true,
};

const TRUTH: Kind = Kind::Of(ValueType::Boolean);

/// Reads the statements of a list.
#[tactic(auto, using(statement_parts::proofs::Puts::put_ahead, statement_parts::proofs::Puts::put_none, statement_parts::proofs::Puts::put_first))]
#[cycle(statements)]
pub fn body(
    alloc: Global,
    setting: &Setting<'_>,
    scope: &mut Scope,
    spot: &Spot,
    statements: &[Seq],
    draft: &mut Draft,
) -> Result<Part<Items<Statement>>, AllocError>
    requires { IsSoundScope scope.old }
    ensures found { FindsIn (spec.body (map (spec.statement_of setting.now) statements.now) scope.old spot.now 0 draft.old) result draft.new }
    ensures scope { OnOk result (scope.new ≡ scope.old) }
{
    let mut all = Part::Kept(Items::new(alloc));
    let mut number = 0;
    for written in statements {
        let one = statement(alloc, setting, scope, spot, number, written, draft)?;
        all = put(all, one)?;
        number = following(number)?;
    }
    Ok(all)
}

#[cycle(statements)]
fn branch(
    alloc: Global,
    setting: &Setting<'_>,
    scope: &mut Scope,
    spot: &Spot,
    written: &IfArm,
    draft: &mut Draft,
) -> Result<Part<Branch>, AllocError>
    requires { IsSoundScope scope.old }
    ensures found { FindsIn (branch_of setting.now written.now scope.old spot.now draft.old) result draft.new }
    ensures scope { OnOk result (scope.new ≡ scope.old) }
{
    let condition = &written.condition;
    let condition = must_be(
        alloc,
        setting,
        scope,
        RUNNING,
        TRUTH,
        condition,
        &mut draft.notes,
    )?;
    let condition = Held::new(condition);
    let body = body(alloc, setting, scope, spot, written.body.as_slice(), draft)?;
    Ok(made_branch(condition.into_inner(), body))
}

#[tactic(auto, using(statement_parts::proofs::Puts::put_ahead, statement_parts::proofs::Puts::put_none, statement_parts::proofs::Puts::put_first))]
#[cycle(statements)]
fn branches(
    alloc: Global,
    setting: &Setting<'_>,
    scope: &mut Scope,
    spot: &Spot,
    statement: u32,
    arms: &[IfArm],
    draft: &mut Draft,
) -> Result<Part<Items<Branch>>, AllocError>
    requires { IsSoundScope scope.old }
    ensures found { FindsIn (spec.branches (map (branch_of setting.now) arms.now) scope.old spot.now statement 0 draft.old) result draft.new }
    ensures scope { OnOk result (scope.new ≡ scope.old) }
{
    let mut all = Part::Kept(Items::new(alloc));
    let mut number = 0;
    for arm in arms {
        let way = way_to(alloc, spot, statement, number)?;
        let one = branch(alloc, setting, scope, &way, arm, draft)?;
        all = put(all, one)?;
        number = following(number)?;
    }
    Ok(all)
}

#[cycle(statements)]
fn alternative(
    alloc: Global,
    setting: &Setting<'_>,
    scope: &mut Scope,
    spot: &Spot,
    kind: &Option<Kind>,
    written: &CaseArm,
    seen: &mut Seen,
    draft: &mut Draft,
) -> Result<Part<Alternative>, AllocError>
    requires { IsSoundScope scope.old }
    ensures found { let one = alternative_of setting.now written.now scope.old spot.now kind.now seen.old draft.old in FindsIn (one.0, one.1.1) result draft.new }
    ensures seen { OnOk result (seen.new ≡ (alternative_of setting.now written.now scope.old spot.now kind.now seen.old draft.old).1.0) }
    ensures scope { OnOk result (scope.new ≡ scope.old) }
{
    let before = seen.values.len();
    let had_others = seen.others;
    let choices = written.choices.as_slice();
    let fine = read_choices(
        alloc,
        setting,
        scope,
        CHOOSING,
        kind,
        choices,
        seen,
        &mut draft.notes,
    )?;
    let body = body(alloc, setting, scope, spot, written.body.as_slice(), draft)?;
    made_alternative(alloc, before, had_others, seen, fine, body)
}

#[tactic(auto, using(statement_parts::proofs::Puts::put_ahead, statement_parts::proofs::Puts::put_none, statement_parts::proofs::Puts::put_first))]
#[cycle(statements)]
fn alternatives(
    alloc: Global,
    setting: &Setting<'_>,
    scope: &mut Scope,
    spot: &Spot,
    statement: u32,
    kind: &Option<Kind>,
    arms: &[CaseArm],
    seen: &mut Seen,
    draft: &mut Draft,
) -> Result<Part<Items<Alternative>>, AllocError>
    requires { IsSoundScope scope.old }
    ensures found { let all = spec.alternatives (map (alternative_of setting.now) arms.now) scope.old spot.now statement 0 kind.now seen.old draft.old in FindsIn (all.0, all.1.1) result draft.new }
    ensures seen { OnOk result (seen.new ≡ (spec.alternatives (map (alternative_of setting.now) arms.now) scope.old spot.now statement 0 kind.now seen.old draft.old).1.0) }
    ensures scope { OnOk result (scope.new ≡ scope.old) }
{
    let mut all = Part::Kept(Items::new(alloc));
    let mut number = 0;
    for arm in arms {
        let way = way_to(alloc, spot, statement, number)?;
        let one = alternative(alloc, setting, scope, &way, kind, arm, seen, draft)?;
        all = put(all, one)?;
        number = following(number)?;
    }
    Ok(all)
}

#[cycle(statements)]
fn case_parts(
    alloc: Global,
    setting: &Setting<'_>,
    scope: &mut Scope,
    spot: &Spot,
    number: u32,
    arms: &[CaseArm],
    expr: &Expr,
    draft: &mut Draft,
) -> Result<Part<Statement>, AllocError>
    requires { IsSoundScope scope.old }
    ensures found { FindsIn (spec.case_statement setting.now expr.now (map (alternative_of setting.now) arms.now) scope.old spot.now number draft.old) result draft.new }
    ensures scope { OnOk result (scope.new ≡ scope.old) }
{
    let expr = typed(alloc, setting, scope, RUNNING, expr, &mut draft.notes)?;
    let kind = kind_known(&expr);
    let expr = Held::new(expr);
    let mut seen = nothing_seen(alloc);
    let all = alternatives(
        alloc, setting, scope, spot, number, &kind, arms, &mut seen, draft,
    )?;
    Ok(made_case(setting, &seen, expr.into_inner(), all))
}

/// The body of a loop with a parameter, in the region of that.
#[cycle(statements)]
fn for_body(
    alloc: Global,
    setting: &Setting<'_>,
    scope: &mut Scope,
    spot: &Spot,
    name: Name,
    parameter: u32,
    statements: &[Seq],
    draft: &mut Draft,
) -> Result<Part<Items<Statement>>, AllocError>
    requires { IsSoundScope scope.old }
    ensures found { FindsIn (spec.body (map (spec.statement_of setting.now) statements.now) (with_name (inside scope.old) name.number (Parameter parameter)) spot.now 0 draft.old) result draft.new }
    ensures scope { OnOk result (scope.new ≡ scope.old) }
{
    enter_loop(alloc, scope, name, parameter)?;
    let inner = body(alloc, setting, scope, spot, statements, draft)?;
    leave_loop(scope);
    Ok(inner)
}

/// A loop whose parameter goes through a range.
#[cycle(statements)]
fn for_loop(
    alloc: Global,
    setting: &Setting<'_>,
    scope: &mut Scope,
    spot: &Spot,
    number: u32,
    name: Name,
    range: &Range,
    statements: &[Seq],
    draft: &mut Draft,
) -> Result<Part<Statement>, AllocError>
    requires { IsSoundScope scope.old }
    ensures found { FindsIn (spec.loop_statement setting.now (iteration.For name range.now) (map (spec.statement_of setting.now) statements.now) scope.old spot.now number draft.old) result draft.new }
    ensures scope { OnOk result (scope.new ≡ scope.old) }
{
    let parameter = number_of(draft.variables.len())?;
    let within = within_loop(alloc, spot, number, parameter)?;
    let bounds = Held::new(for_bounds(alloc, setting, scope, range, &mut draft.notes)?);
    add_parameter(alloc, setting, name, draft)?;
    let inner = for_body(
        alloc, setting, scope, &within, name, parameter, statements, draft,
    )?;
    Ok(made_for(parameter, range.direction, bounds.into_inner(), inner))
}

/// A loop with a condition.
#[cycle(statements)]
fn while_parts(
    alloc: Global,
    setting: &Setting<'_>,
    scope: &mut Scope,
    spot: &Spot,
    number: u32,
    statements: &[Seq],
    expr: &Expr,
    draft: &mut Draft,
) -> Result<Part<Statement>, AllocError>
    requires { IsSoundScope scope.old }
    ensures found { FindsIn (spec.loop_statement setting.now (iteration.While expr.now) (map (spec.statement_of setting.now) statements.now) scope.old spot.now number draft.old) result draft.new }
    ensures scope { OnOk result (scope.new ≡ scope.old) }
{
    let within = looping(alloc, spot, number)?;
    let truth = must_be(
        alloc,
        setting,
        scope,
        RUNNING,
        TRUTH,
        expr,
        &mut draft.notes,
    )?;
    let truth = Held::new(truth);
    let inner = body(alloc, setting, scope, &within, statements, draft)?;
    Ok(made_while(truth.into_inner(), inner))
}

#[cycle(statements)]
fn loop_parts(
    alloc: Global,
    setting: &Setting<'_>,
    scope: &mut Scope,
    spot: &Spot,
    number: u32,
    how: &Iteration,
    statements: &[Seq],
    draft: &mut Draft,
) -> Result<Part<Statement>, AllocError>
    requires { IsSoundScope scope.old }
    ensures found { FindsIn (spec.loop_statement setting.now how.now (map (spec.statement_of setting.now) statements.now) scope.old spot.now number draft.old) result draft.new }
    ensures scope { OnOk result (scope.new ≡ scope.old) }
{
    match how {
        Iteration::Endless => {
            let within = looping(alloc, spot, number)?;
            let inner = body(alloc, setting, scope, &within, statements, draft)?;
            Ok(made_loop(inner))
        }
        Iteration::While(expr) => {
            while_parts(alloc, setting, scope, spot, number, statements, expr, draft)
        }
        Iteration::For(name, range) => {
            for_loop(
                alloc, setting, scope, spot, number, *name, range, statements, draft,
            )
        }
    }
}

/// An if without an else.
#[cycle(statements)]
fn if_alone(
    alloc: Global,
    setting: &Setting<'_>,
    scope: &mut Scope,
    spot: &Spot,
    number: u32,
    place: Place,
    arms: &[IfArm],
    draft: &mut Draft,
) -> Result<Part<Statement>, AllocError>
    requires { IsSoundScope scope.old }
    ensures found { FindsIn (spec.whole place (if_alone (map (branch_of setting.now) arms.now) scope.old spot.now number draft.old)) result draft.new }
    ensures scope { OnOk result (scope.new ≡ scope.old) }
{
    let first = branches(alloc, setting, scope, spot, number, arms, draft)?;
    let last = Part::Kept(Items::new(alloc));
    finish(place, made_if(first, last), &mut draft.notes)
}

/// The else of an if, behind its branches.
#[tactic(auto, using(crate::proofs::Lengths::length_mapped))]
#[cycle(statements)]
fn else_parts(
    alloc: Global,
    setting: &Setting<'_>,
    scope: &mut Scope,
    spot: &Spot,
    number: u32,
    last: &[Seq],
    arms: &[IfArm],
    first: Part<Items<Branch>>,
    draft: &mut Draft,
) -> Result<Part<Statement>, AllocError>
    requires { IsSoundScope scope.old }
    ensures found { FindsIn (else_parts (map (branch_of setting.now) arms.now) first (map (spec.statement_of setting.now) last.now) scope.old spot.now number draft.old) result draft.new }
    ensures scope { OnOk result (scope.new ≡ scope.old) }
{
    let first = Held::new(first);
    let way = way_to(alloc, spot, number, number_of(arms.len())?)?;
    let rest = body(alloc, setting, scope, &way, last, draft)?;
    Ok(made_if(first.into_inner(), rest))
}

#[cycle(statements)]
fn if_else(
    alloc: Global,
    setting: &Setting<'_>,
    scope: &mut Scope,
    spot: &Spot,
    number: u32,
    place: Place,
    last: &[Seq],
    arms: &[IfArm],
    first: Part<Items<Branch>>,
    draft: &mut Draft,
) -> Result<Part<Statement>, AllocError>
    requires { IsSoundScope scope.old }
    ensures found { FindsIn (spec.whole place (else_parts (map (branch_of setting.now) arms.now) first (map (spec.statement_of setting.now) last.now) scope.old spot.now number draft.old)) result draft.new }
    ensures scope { OnOk result (scope.new ≡ scope.old) }
{
    let made = else_parts(
        alloc, setting, scope, spot, number, last, arms, first, draft,
    )?;
    finish(place, made, &mut draft.notes)
}

#[cycle(statements)]
fn case_statement(
    alloc: Global,
    setting: &Setting<'_>,
    scope: &mut Scope,
    spot: &Spot,
    number: u32,
    place: Place,
    arms: &[CaseArm],
    expr: &Expr,
    draft: &mut Draft,
) -> Result<Part<Statement>, AllocError>
    requires { IsSoundScope scope.old }
    ensures found { FindsIn (spec.whole place (spec.case_statement setting.now expr.now (map (alternative_of setting.now) arms.now) scope.old spot.now number draft.old)) result draft.new }
    ensures scope { OnOk result (scope.new ≡ scope.old) }
{
    let made = case_parts(alloc, setting, scope, spot, number, arms, expr, draft)?;
    finish(place, made, &mut draft.notes)
}

#[cycle(statements)]
fn loop_statement(
    alloc: Global,
    setting: &Setting<'_>,
    scope: &mut Scope,
    spot: &Spot,
    number: u32,
    place: Place,
    how: &Iteration,
    statements: &[Seq],
    draft: &mut Draft,
) -> Result<Part<Statement>, AllocError>
    requires { IsSoundScope scope.old }
    ensures found { FindsIn (spec.whole place (spec.loop_statement setting.now how.now (map (spec.statement_of setting.now) statements.now) scope.old spot.now number draft.old)) result draft.new }
    ensures scope { OnOk result (scope.new ≡ scope.old) }
{
    let made = loop_parts(alloc, setting, scope, spot, number, how, statements, draft)?;
    finish(place, made, &mut draft.notes)
}

/// Reads a statement, which has this number in its list.
#[cycle(statements)]
pub fn statement(
    alloc: Global,
    setting: &Setting<'_>,
    scope: &mut Scope,
    spot: &Spot,
    number: u32,
    written: &Seq,
    draft: &mut Draft,
) -> Result<Part<Statement>, AllocError>
    requires { IsSoundScope scope.old }
    ensures found { FindsIn (spec.statement_of setting.now written.now scope.old spot.now number draft.old) result draft.new }
    ensures scope { OnOk result (scope.new ≡ scope.old) }
{
    match written {
        Seq::Signal(name, delay, elements) => {
            signal_statement(
                alloc,
                setting,
                scope,
                *name,
                delay,
                elements.as_slice(),
                draft,
            )
        }
        Seq::Variable(name, value) => {
            variable_statement(alloc, setting, scope, *name, value, draft)
        }
        Seq::If(place, arms, None) => {
            let arms = arms.as_slice();
            if_alone(alloc, setting, scope, spot, number, *place, arms, draft)
        }
        Seq::If(place, arms, Some(last)) => {
            let arms = arms.as_slice();
            let first = branches(alloc, setting, scope, spot, number, arms, draft)?;
            let last = last.as_slice();
            if_else(
                alloc, setting, scope, spot, number, *place, last, arms, first, draft,
            )
        }
        Seq::Case(place, expr, arms) => {
            case_statement(
                alloc,
                setting,
                scope,
                spot,
                number,
                *place,
                arms.as_slice(),
                expr,
                draft,
            )
        }
        Seq::Loop(place, how, body) => {
            loop_statement(
                alloc,
                setting,
                scope,
                spot,
                number,
                *place,
                how,
                body.as_slice(),
                draft,
            )
        }
        Seq::Exit(place, when) => {
            exit_statement(alloc, setting, scope, spot, *place, when, draft)
        }
        Seq::Next(place, when) => {
            next_statement(alloc, setting, scope, spot, *place, when, draft)
        }
        Seq::Wait(place, names, until, time) => {
            let names = names.as_slice();
            wait_statement(
                alloc, setting, scope, spot, number, *place, names, until, time, draft,
            )
        }
        Seq::Assert(written) => assert_statement(alloc, setting, scope, written, draft),
        Seq::Report(place, written) => report_statement(alloc, setting, *place, written, draft),
        Seq::Break(place, elements, when) => {
            break_statement(
                alloc,
                setting,
                scope,
                *place,
                elements.as_slice(),
                when,
                draft,
            )
        }
        Seq::Null(_) => Ok(Part::Kept(Statement::Null)),
    }
}
