//! The equations of a branch.
ghost use Rattle.std.specs.Prelude.{◌≡◌};
ghost use Rattle.design_meaning.specs.Equations.{if_branch, case_branch, branch_of};

use flat_design::{CaseArm, IfArm, Pair, Selection};

#[tactic(auto, using(crate::proofs::Branches::if_within, crate::proofs::Branches::if_past))]
fn if_pairs<'a>(arms: &'a [IfArm], last: &'a [Pair], branch: u32) -> &'a [Pair]
    ensures { result.now ≡ if_branch arms.now last.now branch }
{
    let branch = branch as usize;
    if branch < arms.len() {
        arms[branch].pairs.as_slice()
    } else {
        last
    }
}

#[tactic(auto, using(crate::proofs::Branches::case_within, crate::proofs::Branches::case_past))]
fn case_pairs(arms: &[CaseArm], branch: u32) -> &[Pair]
    ensures { result.now ≡ case_branch arms.now branch }
{
    let branch = branch as usize;
    if branch < arms.len() {
        arms[branch].pairs.as_slice()
    } else {
        &[]
    }
}

/// The equations of a numbered branch of a choice. The branch after `else` is the last.
pub fn branch_pairs(selection: &Selection, branch: u32) -> &[Pair]
    ensures { result.now ≡ branch_of selection.now branch }
{
    match selection {
        Selection::If(arms, last) => if_pairs(arms.as_slice(), last.as_slice(), branch),
        Selection::Case(_, arms) => case_pairs(arms.as_slice(), branch),
    }
}
