//! How many equations the branches of a statement have.
ghost use Rattle.std.specs.Prelude.{◌≡◌, map, length, nat_eq, IfOk, OnOk};
ghost use Rattle.std.specs.List.{list_all};
ghost use Rattle.ams_tree.specs.declared.concurrent.SimultaneousBranch.{SimultaneousBranch as Branch};
ghost use Rattle.unit_meaning.specs.Simultaneous as spec;

use ams_token::Place;
use ams_tree::{ConcurrentStatement, Equation, SimultaneousAlternative, SimultaneousBranch};
use elab_meaning::{Cause, Notes};
use expr_types::note;
use sqlite_items::Items;
use std::alloc::{AllocError, Global};

fn are_all(length: usize, lengths: &[usize]) -> bool
    ensures { result ≡ list_all (nat_eq length) lengths.now }
{
    lengths.iter().all(|other| length == *other)
}

fn are_same(lengths: &[usize]) -> bool
    ensures { result ≡ spec.same_lengths lengths.now }
{
    match lengths {
        [first, more @ ..] => are_all(*first, more),
        [] => true,
    }
}

/// The length of the first branch.
pub fn first_length(lengths: &[usize]) -> usize
    ensures { result ≡ spec.first_length lengths.now }
{
    match lengths {
        [first, ..] => *first,
        [] => 0,
    }
}

/// Notes a statement whose branches have different numbers of equations.
pub fn compare(place: Place, lengths: &[usize], notes: &mut Notes) -> Result<(), AllocError>
    ensures { OnOk result (notes.new ≡ spec.compared place lengths.now notes.old) }
{
    if are_same(lengths) {
        Ok(())
    } else {
        note(notes, place, Cause::UnequalBranches)
    }
}

fn branch_lengths(
    alloc: Global,
    branches: &[SimultaneousBranch],
) -> Result<Items<usize>, AllocError>
    ensures { IfOk result (λ lengths. lengths ≡ map (λ (b : Branch). length b.equations) branches.now) }
{
    let mut lengths = Items::new(alloc);
    for branch in branches {
        lengths.push(branch.equations.len())?;
    }
    Ok(lengths)
}

/// How many equations the branches of an if have.
pub fn if_lengths(
    alloc: Global,
    branches: &[SimultaneousBranch],
    last: &Option<Items<Equation>>,
) -> Result<Items<usize>, AllocError>
    ensures { IfOk result (λ lengths. lengths ≡ spec.if_lengths branches.now last.now) }
{
    let mut lengths = branch_lengths(alloc, branches)?;
    if let Some(last) = last {
        lengths.push(last.len())?;
    }
    Ok(lengths)
}

/// How many equations the alternatives of a case have.
pub fn case_lengths(
    alloc: Global,
    alternatives: &[SimultaneousAlternative],
) -> Result<Items<usize>, AllocError>
    ensures { IfOk result (λ lengths. lengths ≡ spec.case_lengths alternatives.now) }
{
    let mut lengths = Items::new(alloc);
    for alternative in alternatives {
        lengths.push(alternative.equations.len())?;
    }
    Ok(lengths)
}

fn length_of_if(branches: &[SimultaneousBranch], last: &Option<Items<Equation>>) -> usize
    ensures { result ≡ spec.first_length (spec.if_lengths branches.now last.now) }
{
    match branches {
        [first, ..] => first.equations.len(),
        [] => match last {
            Some(last) => last.len(),
            None => 0,
        },
    }
}

fn length_of_case(alternatives: &[SimultaneousAlternative]) -> usize
    ensures { result ≡ spec.first_length (spec.case_lengths alternatives.now) }
{
    match alternatives {
        [first, ..] => first.equations.len(),
        [] => 0,
    }
}

/// How many equations a statement gives: a choice those of one branch.
pub fn equation_count(statement: &ConcurrentStatement) -> usize
    ensures { result ≡ spec.equation_count statement.now }
{
    match statement {
        ConcurrentStatement::Equation(_) => 1,
        ConcurrentStatement::If(_, branches, last) => length_of_if(branches.as_slice(), last),
        ConcurrentStatement::Case(_, _, alternatives) => length_of_case(alternatives.as_slice()),
        _ => 0,
    }
}
