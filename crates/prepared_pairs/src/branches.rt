//! The equations of each branch, prepared.
ghost use Rattle.std.specs.Prelude.{◌≡◌, ◌++◌, ◌∷◌, [], map, IfOk};
ghost use Rattle.prepared_pairs.specs.Prepared.{prepared, prepared_each, prepared_in, prepared_by_branch};

use crate::pair::PreparedPair;
use flat_design::{CaseArm, Equation, IfArm, Pair, Selection};
use flat_expr::Unknown;
use sqlite_items::Items;
use std::alloc::{AllocError, Global};

/// Prepares each equation.
fn prepare_each(
    alloc: Global,
    pairs: &[Pair],
    unknowns: &[Unknown],
) -> Result<Items<PreparedPair>, AllocError>
    ensures { IfOk result (λ all. all ≡ prepared_each unknowns.now pairs.now) }
{
    let mut all = Items::new(alloc);
    for pair in pairs {
        all.push(PreparedPair::new(alloc, pair, unknowns)?)?;
    }
    Ok(all)
}

fn prepare_if(
    alloc: Global,
    arms: &[IfArm],
    unknowns: &[Unknown],
) -> Result<Items<Items<PreparedPair>>, AllocError>
    ensures { IfOk result (λ all. all ≡ map (λ (arm : IfArm). prepared_each unknowns.now arm.pairs) arms.now) }
{
    let mut all = Items::new(alloc);
    for arm in arms {
        all.push(prepare_each(alloc, arm.pairs.as_slice(), unknowns)?)?;
    }
    Ok(all)
}

fn prepare_case(
    alloc: Global,
    arms: &[CaseArm],
    unknowns: &[Unknown],
) -> Result<Items<Items<PreparedPair>>, AllocError>
    ensures { IfOk result (λ all. all ≡ map (λ (arm : CaseArm). prepared_each unknowns.now arm.pairs) arms.now) }
{
    let mut all = Items::new(alloc);
    for arm in arms {
        all.push(prepare_each(alloc, arm.pairs.as_slice(), unknowns)?)?;
    }
    Ok(all)
}

/// Prepares the equations of the arms, and then those after `else`.
fn prepare_if_else(
    alloc: Global,
    arms: &[IfArm],
    last: &[Pair],
    unknowns: &[Unknown],
) -> Result<Items<Items<PreparedPair>>, AllocError>
    ensures { IfOk result (λ all. all ≡ map (λ (arm : IfArm). prepared_each unknowns.now arm.pairs) arms.now ++ prepared_each unknowns.now last.now ∷ []) }
{
    let mut all = prepare_if(alloc, arms, unknowns)?;
    all.push(prepare_each(alloc, last, unknowns)?)?;
    Ok(all)
}

fn prepare_selection(
    alloc: Global,
    selection: &Selection,
    unknowns: &[Unknown],
) -> Result<Items<Items<PreparedPair>>, AllocError>
    ensures { IfOk result (λ all. all ≡ prepared_in unknowns.now selection.now) }
{
    match selection {
        Selection::If(arms, last) => {
            prepare_if_else(alloc, arms.as_slice(), last.as_slice(), unknowns)
        }
        Selection::Case(_, arms) => prepare_case(alloc, arms.as_slice(), unknowns),
    }
}

/// Prepares an equation without a choice, which is a branch alone.
fn prepare_pair(
    alloc: Global,
    pair: &Pair,
    unknowns: &[Unknown],
) -> Result<Items<Items<PreparedPair>>, AllocError>
    ensures { IfOk result (λ all. all ≡ (prepared pair.now unknowns.now ∷ []) ∷ []) }
{
    let mut own = Items::new(alloc);
    own.push(PreparedPair::new(alloc, pair, unknowns)?)?;
    let mut all = Items::new(alloc);
    all.push(own)?;
    Ok(all)
}

/// Prepares the equations of each branch.
fn prepare_equation(
    alloc: Global,
    equation: &Equation,
    unknowns: &[Unknown],
) -> Result<Items<Items<PreparedPair>>, AllocError>
    ensures { IfOk result (λ all. all ≡ prepared_by_branch unknowns.now equation.now) }
{
    match equation {
        Equation::Pair(pair) => prepare_pair(alloc, pair, unknowns),
        Equation::Choice(choice) => prepare_selection(alloc, &choice.selection, unknowns),
    }
}

/// Prepares the equations of each branch of each explicit equation.
pub fn prepare_branches(
    alloc: Global,
    equations: &[Equation],
    unknowns: &[Unknown],
) -> Result<Items<Items<Items<PreparedPair>>>, AllocError>
    ensures { IfOk result (λ all. all ≡ map (prepared_by_branch unknowns.now) equations.now) }
{
    let mut all = Items::new(alloc);
    for equation in equations {
        all.push(prepare_equation(alloc, equation, unknowns)?)?;
    }
    Ok(all)
}
