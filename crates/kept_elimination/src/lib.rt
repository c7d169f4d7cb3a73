//! Elimination of a matrix and of its right sides fall apart: what a matrix gives can be kept, and used for any right sides.
#![tactic(auto)]

ghost use Rattle.kept_elimination.specs.Laws.{KeptGivesTheSolution, FaultUnlessOverflowBefore, OverflowStays};

/// A kept elimination gives what solving the whole system gives. It is proved, and does nothing when it runs.
#[tactic(auto, using(crate::proofs::Steps::laws))]
pub fn kept_gives_the_solution()
    ensures { KeptGivesTheSolution }
{}

/// What a system gives where elimination of its matrix fails. It is proved, and does nothing when it runs.
#[tactic(auto, using(crate::proofs::Faults::faults))]
pub fn faults_of_the_matrix()
    ensures singular { FaultUnlessOverflowBefore }
    ensures overflow { OverflowStays }
{}
