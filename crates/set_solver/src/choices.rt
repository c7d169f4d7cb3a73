//! The branches of simultaneous if and case statements.
ghost use Rattle.std.specs.Prelude.{◌≡◌, length};
ghost use Rattle.design_meaning.specs.Steps.{selections_of};

use flat_design::Equation;
use step_data::Choices;

/// How many choices stand among equations.
pub fn choice_count(equations: &[Equation]) -> usize
    ensures { result ≡ length (selections_of equations.now) }
{
    let mut count = 0;
    for i in 0..equations.len() {
        if let Equation::Choice(_) = &equations[i] {
            count += 1;
        }
    }
    count
}

/// Copies the branch of each choice.
pub fn copy_branches(branches: &[u32], out: &mut Choices)
    requires { length branches.now ≡ length out.old }
    ensures { out.new ≡ branches.now }
{
    for k in 0..branches.len() {
        out.set(k, branches[k]);
    }
}
