//! The residuals of equations with their branches.
ghost use Rattle.std.specs.Prelude.{◌≡◌, ◌+◌, ◌≤◌, length, map, take};
ghost use Rattle.std.specs.List.{All};
ghost use Rattle.fix_core.specs.Passes.{each, answer, joined};
ghost use Rattle.design_meaning.specs.Equations.{row_of, chosen_pairs};
ghost use Rattle.design_rules.specs.Rows.{AreBranches};
ghost use Rattle.equation_values.specs.Residuals.{residual_at};
ghost use Rattle.equation_values.specs.Evaluable.{CanEvaluateEquation};
ghost use Rattle.prepared_pairs.specs.Prepared.{prepared_by_branch};
ghost use Rattle.equation_values.specs.Reading.{readings_in};

use crate::parts::{branch_in, branch_prepared, choices_in, equation_pairs};
use design_meaning::EvalFault;
use equation_values::EquationValues;
use explicit_rows::write_residuals as write_pairs;
use fix_core::Fix;
use flat_design::Equation;
use flat_expr::Unknown;
use prepared_pairs::PreparedPair;
use sqlite_items::Items;

/// Writes the residuals of equations with their branches, which are prepared so, from a place on, or answers the first fault.
pub fn write_residuals(
    equations: &[Equation],
    prepared: &[Items<Items<PreparedPair>>],
    branches: &[u32],
    unknowns: &[Unknown],
    values: &EquationValues<'_>,
    out: &mut [Fix],
    first: usize,
) -> Result<(), EvalFault>
    requires evaluable { All (CanEvaluateEquation (readings_in values.now)) equations.now }
    requires prepared { prepared.now ≡ map (prepared_by_branch unknowns.now) equations.now }
    requires branches { AreBranches equations.now branches.now }
    requires room { first + length (chosen_pairs equations.now branches.now) ≤ length out.old }
    ensures answer { joined (take first out.old) (each (residual_at (readings_in values.now)) (map row_of (chosen_pairs equations.now branches.now))) ≡ answer result (take (first + length (chosen_pairs equations.now branches.now)) out.new) }
    ensures count { length out.new ≡ length out.old }
{
    let mut row = first;
    let mut choice = 0;
    for i in 0..equations.len() {
        let equation = &equations[i];
        let branch = branch_in(equation, branches, choice);
        let pairs = equation_pairs(equation, branch);
        let own = branch_prepared(prepared[i].as_slice(), branch);
        write_pairs(pairs, own, unknowns, values, out, row)?;
        row += pairs.len();
        choice += choices_in(equation);
    }
    Ok(())
}
