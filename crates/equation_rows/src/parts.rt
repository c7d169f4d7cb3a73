//! What an equation gives with its branch.
ghost use Rattle.std.specs.Prelude.{◌≡◌, ◌+◌, ◌<◌, ◌≤◌, [], length, slice_index_or};
ghost use Rattle.equation_rows.specs.Parts.{pairs_of, choices_in, branch_in};

use explicit_rows::branch_pairs;
use flat_design::{Equation, Pair};
use prepared_pairs::PreparedPair;
use sqlite_items::Items;
use std::slice;

/// How many branches an equation takes from the list of branches.
pub fn choices_in(equation: &Equation) -> usize
    ensures { result ≡ choices_in equation.now }
{
    match equation {
        Equation::Pair(_) => 0,
        Equation::Choice(_) => 1,
    }
}

/// The branch of an equation, where the branches of those before it are this many.
pub fn branch_in(equation: &Equation, branches: &[u32], before: usize) -> u32
    requires { before + choices_in equation.now ≤ length branches.now }
    ensures { result ≡ branch_in equation.now branches.now before }
{
    match equation {
        Equation::Pair(_) => 0,
        Equation::Choice(_) => branches[before],
    }
}

/// The equation itself, or those of its branch.
pub fn equation_pairs(equation: &Equation, branch: u32) -> &[Pair]
    ensures { result.now ≡ pairs_of equation.now branch }
{
    match equation {
        Equation::Pair(pair) => slice::from_ref(pair),
        Equation::Choice(choice) => branch_pairs(&choice.selection, branch),
    }
}

/// What is prepared of the equations of a branch.
pub fn branch_prepared(own: &[Items<PreparedPair>], branch: u32) -> &[PreparedPair]
    requires { branch < length own.now }
    ensures { result.now ≡ slice_index_or own.now branch [] }
{
    own[branch as usize].as_slice()
}
