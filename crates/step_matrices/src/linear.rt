//! Whether all slopes are constant.
ghost use Rattle.std.specs.Prelude.{[], ◌∷◌, IsTrue};
ghost use Rattle.step_matrices.specs.Linear.{HasConstants, AreLinear};

use flat_design::{Equation, Pair};
use flat_expr::Unknown;
use prepared_pairs::constant_in_row;

/// Whether each slope of an equation is constant.
fn has_constants(pair: &Pair, unknowns: &[Unknown]) -> bool
    ensures { IsTrue result → HasConstants unknowns.now pair.now }
{
    for i in 0..unknowns.len() {
        if constant_in_row(pair, unknowns[i]).is_none() {
            return false;
        }
    }
    true
}

/// Whether an equation is no choice, and each of its slopes is constant.
fn is_linear(equation: &Equation, unknowns: &[Unknown]) -> bool
    ensures { IsTrue result → AreLinear unknowns.now (equation.now ∷ []) }
{
    match equation {
        Equation::Pair(pair) => has_constants(pair, unknowns),
        Equation::Choice(_) => false,
    }
}

/// Whether no equation is a choice, and each of their slopes is constant.
pub fn are_linear(equations: &[Equation], unknowns: &[Unknown]) -> bool
    ensures { IsTrue result → AreLinear unknowns.now equations.now }
{
    for i in 0..equations.len() {
        if !is_linear(&equations[i], unknowns) {
            return false;
        }
    }
    true
}
