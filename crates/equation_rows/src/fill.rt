//! The rows of the linear system that equations with their branches give.
ghost use Rattle.std.specs.Prelude.{◌≡◌, ◌+◌, ◌≤◌, length, map, take};
ghost use Rattle.std.specs.List.{All};
ghost use Rattle.fix_core.specs.Passes.{each, answer, joined};
ghost use Rattle.design_meaning.specs.Equations.{row_of, chosen_pairs};
ghost use Rattle.design_meaning.specs.Newton.{linear_row};
ghost use Rattle.design_rules.specs.Rows.{AreBranches};
ghost use Rattle.prepared_pairs.specs.Prepared.{prepared_by_branch};
ghost use Rattle.equation_values.specs.Evaluable.{CanEvaluateEquation};
ghost use Rattle.equation_values.specs.Reading.{readings_in};

use crate::parts::{branch_in, branch_prepared, choices_in, equation_pairs};
use design_meaning::EvalFault;
use equation_values::EquationValues;
use explicit_rows::fill_pairs;
use flat_design::Equation;
use flat_expr::Unknown;
use prepared_pairs::PreparedPair;
use sparse_rows::SparseRows;
use sqlite_items::Items;

/// Writes the rows of equations with their branches, which are prepared so, from a row on, or answers the first fault.
pub fn fill_equations(
    equations: &[Equation],
    prepared: &[Items<Items<PreparedPair>>],
    branches: &[u32],
    unknowns: &[Unknown],
    values: &EquationValues<'_>,
    rows: &mut SparseRows,
    first: usize,
) -> Result<(), EvalFault>
    requires evaluable { All (CanEvaluateEquation (readings_in values.now)) equations.now }
    requires prepared { prepared.now ≡ map (prepared_by_branch unknowns.now) equations.now }
    requires branches { AreBranches equations.now branches.now }
    requires size { length unknowns.now ≡ length rows.old }
    requires room { first + length (chosen_pairs equations.now branches.now) ≤ length rows.old }
    ensures answer { joined (take first rows.old) (each (linear_row unknowns.now (readings_in values.now)) (map row_of (chosen_pairs equations.now branches.now))) ≡ answer result (take (first + length (chosen_pairs equations.now branches.now)) rows.new) }
    ensures count { length rows.new ≡ length rows.old }
{
    let mut row = first;
    let mut choice = 0;
    for i in 0..equations.len() {
        let equation = &equations[i];
        let branch = branch_in(equation, branches, choice);
        let pairs = equation_pairs(equation, branch);
        let own = branch_prepared(prepared[i].as_slice(), branch);
        fill_pairs(pairs, own, unknowns, values, rows, row)?;
        row += pairs.len();
        choice += choices_in(equation);
    }
    Ok(())
}
