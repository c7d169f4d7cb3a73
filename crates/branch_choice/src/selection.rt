//! The branch of one choice.
ghost use Rattle.std.specs.Prelude.{◌≡◌, ◌<◌, ◌≤◌, length, IfOk, Ok};
ghost use Rattle.std.specs.List.{All, position};
ghost use Rattle.ams_value.specs.Values.{is_true};
ghost use Rattle.design_meaning.specs.Steps.{if_chosen, case_chosen, branch_chosen};
ghost use Rattle.equation_values.specs.Evaluable.{CanEvaluateIfArm, CanEvaluateSelection};
ghost use Rattle.fix_core.specs.Passes.{and_then};
ghost use Rattle.design_meaning.specs.Value.{value_of};
ghost use Rattle.expr_eval.specs.Condition.{CanEvaluate};
ghost use Rattle.design_rules.specs.Branches.{branch_count, branch_limit};
ghost use Rattle.branch_choice.specs.Chosen.{names, has_others, truth_of};
ghost use Rattle.equation_values.specs.Reading.{readings_in};

use ams_value::{Val, equal};
use design_meaning::EvalFault;
use equation_values::EquationValues;
use expr_eval::value;
use flat_design::{CaseArm, IfArm, Selection};
use flat_expr::FlatExpr;

fn is_true(value: Val) -> bool
    ensures { result ≡ is_true value }
{
    match value {
        Val::Bool(truth) => truth,
        _ => false,
    }
}

/// Whether a condition is TRUE.
fn truth(condition: &FlatExpr, values: &EquationValues<'_>) -> Result<bool, EvalFault>
    requires { CanEvaluate (readings_in values.now) condition.now }
    ensures { result ≡ truth_of condition.now (readings_in values.now) }
{
    match value(condition, values) {
        Ok(found) => Ok(is_true(found)),
        Err(fault) => Err(fault),
    }
}

/// The first branch whose condition is TRUE, else the last one.
fn if_branch(arms: &[IfArm], values: &EquationValues<'_>) -> Result<usize, EvalFault>
    requires { All (CanEvaluateIfArm (readings_in values.now)) arms.now }
    ensures value { result ≡ if_chosen 0 arms.now (readings_in values.now) }
    ensures bound { IfOk result (λ branch. branch ≤ length arms.now) }
{
    for (number, arm) in arms.iter().enumerate() {
        match truth(&arm.condition, values) {
            Ok(true) => return Ok(number),
            Ok(false) => {}
            Err(fault) => return Err(fault),
        }
    }
    Ok(arms.len())
}

fn names(arm: &CaseArm, value: &Val) -> bool
    ensures { result ≡ names value.now arm.now }
{
    arm.choices
        .as_slice()
        .iter()
        .any(|choice| equal(*value, *choice))
}

fn has_others(arm: &CaseArm) -> bool
    ensures { result ≡ has_others arm.now }
{
    arm.others
}

fn number_naming(arms: &[CaseArm], value: &Val) -> Option<usize>
    ensures { result ≡ position (names value.now) arms.now }
{
    arms.iter().position(|arm| names(arm, value))
}

fn number_of_others(arms: &[CaseArm]) -> Option<usize>
    ensures { result ≡ position has_others arms.now }
{
    arms.iter().position(|arm| has_others(arm))
}

/// The branch that names a value, else that of `others`.
#[tactic(auto, using(crate::proofs::Chosen::case_is))]
fn case_branch(arms: &[CaseArm], value: &Val) -> usize
    ensures { result ≡ case_chosen arms.now value.now }
{
    match number_naming(arms, value) {
        Some(number) => number,
        None => match number_of_others(arms) {
            Some(number) => number,
            None => 0,
        },
    }
}

/// The branch of a simultaneous if.
fn selected_if(arms: &[IfArm], values: &EquationValues<'_>) -> Result<u32, EvalFault>
    requires evaluable { All (CanEvaluateIfArm (readings_in values.now)) arms.now }
    requires numbers { length arms.now < branch_limit }
    ensures { result ≡ if_chosen 0 arms.now (readings_in values.now) }
{
    match if_branch(arms, values) {
        Ok(branch) => Ok(branch as u32),
        Err(fault) => Err(fault),
    }
}

/// The branch of a simultaneous case.
fn selected_case(
    expression: &FlatExpr,
    arms: &[CaseArm],
    values: &EquationValues<'_>,
) -> Result<u32, EvalFault>
    requires evaluable { CanEvaluate (readings_in values.now) expression.now }
    requires numbers { length arms.now < branch_limit }
    ensures { result ≡ and_then (λ v. Ok (case_chosen arms.now v)) (value_of expression.now (readings_in values.now)) }
{
    let found = value(expression, values)?;
    Ok(case_branch(arms, &found) as u32)
}

/// The branch of a choice, which has fewer than 2^32, or the first fault.
pub fn selected(selection: &Selection, values: &EquationValues<'_>) -> Result<u32, EvalFault>
    requires evaluable { CanEvaluateSelection (readings_in values.now) selection.now }
    requires numbers { branch_count selection.now < branch_limit }
    ensures { result ≡ branch_chosen (readings_in values.now) selection.now }
{
    match selection {
        Selection::If(arms, _) => selected_if(arms.as_slice(), values),
        Selection::Case(expression, arms) => { selected_case(expression, arms.as_slice(), values) }
    }
}
