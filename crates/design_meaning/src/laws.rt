//! Laws of the definitions. Each is proved, and does nothing when it runs.
ghost use Rattle.design_meaning.specs.Laws.{SumsHaveTheBranchEnds, SetsDifferInAugmentation};
ghost use Rattle.design_meaning.specs.Variants.{MeaningByVariants};
ghost use Rattle.design_meaning.specs.Solutions.{SolutionsAreWithinTolerance};
ghost use Rattle.design_meaning.specs.Worked.{WorkedSolutions};

/// The value and the slopes of an expression follow from those of its operands.
#[tactic(auto, using(crate::proofs::Meanings::variants))]
pub fn meaning_by_variants()
    ensures { MeaningByVariants }
{}

/// The sum of the currents at a node has a term for each branch end.
#[tactic(auto, using(crate::proofs::SetLaws::sums))]
pub fn sums_have_the_branch_ends()
    ensures { SumsHaveTheBranchEnds }
{}

/// The three sets differ in their augmentation equations alone.
#[tactic(auto, using(crate::proofs::SetLaws::sets))]
pub fn sets_differ_in_augmentation()
    ensures { SetsDifferInAugmentation }
{}

/// The residuals of a solution are within the tolerance, for every equation of the chosen branches.
#[tactic(auto, using(crate::proofs::SolutionLaws::solutions))]
pub fn solutions_are_within_tolerance()
    ensures { SolutionsAreWithinTolerance }
{}

/// Solutions of small designs, worked by hand.
#[tactic(auto, using(crate::proofs::WorkedRows::solutions))]
pub fn worked_solutions()
    ensures { WorkedSolutions }
{}
