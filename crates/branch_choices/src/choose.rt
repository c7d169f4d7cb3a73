//! The branches of all choices.
ghost use Rattle.std.specs.Prelude.{◌≡◌, ◌+◌, ◌≤◌, length, take};
ghost use Rattle.std.specs.List.{All};
ghost use Rattle.fix_core.specs.Passes.{each, answer, joined};
ghost use Rattle.design_meaning.specs.Steps.{branch_chosen, selections_of};
ghost use Rattle.equation_values.specs.Evaluable.{CanEvaluateEquation};
ghost use Rattle.equation_values.specs.Reading.{readings_in};
ghost use Rattle.design_rules.specs.Branches.{HasFewBranches};

use branch_choice::selected;
use design_meaning::EvalFault;
use equation_values::EquationValues;
use flat_design::Equation;

/// Writes the branch of each choice in walk order, from a place on, or answers the first fault.
pub fn choose_branches(
    equations: &[Equation],
    values: &EquationValues<'_>,
    out: &mut [u32],
    first: usize,
) -> Result<(), EvalFault>
    requires evaluable { All (CanEvaluateEquation (readings_in values.now)) equations.now }
    requires numbers { All HasFewBranches equations.now }
    requires room { first + length (selections_of equations.now) ≤ length out.old }
    ensures answer { joined (take first out.old) (each (branch_chosen (readings_in values.now)) (selections_of equations.now)) ≡ answer result (take (first + length (selections_of equations.now)) out.new) }
    ensures count { length out.new ≡ length out.old }
{
    let mut place = first;
    for i in 0..equations.len() {
        if let Equation::Choice(choice) = &equations[i] {
            out[place] = selected(&choice.selection, values)?;
            place += 1;
        }
    }
    Ok(())
}
