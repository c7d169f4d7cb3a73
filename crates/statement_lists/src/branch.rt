//! Branches of an if.
ghost use Rattle.std.specs.Prelude.{◌≡◌};
ghost use Rattle.statement_lists.specs.Branches.{branch_number, CanEvaluateBranches, BranchesAreTaken};

use flat_expr::Branch;
use statement_values::{Activation, truth};
use step_data::Refusal;

/// The number of the first branch whose condition holds, and that of the branch after `else` where none holds (IEEE 1076, 10.8).
pub fn branch_number<A: Activation>(at: &A, branches: &[Branch]) -> Result<usize, Refusal>
    requires { CanEvaluateBranches (A.readings at.now) branches.now }
    ensures { result ≡ branch_number (A.context at.now) (A.local at.now) branches.now }
{
    for (number, branch) in branches.iter().enumerate() {
        match truth(at, &branch.condition) {
            Ok(true) => return Ok(number),
            Ok(false) => {}
            Err(refusal) => return Err(refusal),
        }
    }
    Ok(branches.len())
}

/// An if leads to the statements of the branch with that number. It is proved, and does nothing when it runs.
#[tactic(auto, using(crate::proofs::Taken::branches))]
pub fn branches_are_taken()
    ensures { BranchesAreTaken }
{}
