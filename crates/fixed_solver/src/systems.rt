//! Which systems a design's solver solves.
ghost use Rattle.fixed_solver.specs.Solves.{SystemsAreSolved};

/// The system that a design with its options is has the design's analogue side. It is proved, and does nothing when it
/// runs.
#[tactic(auto, using(crate::proofs::Solved::systems_are_solved))]
pub fn systems_are_solved()
    ensures { SystemsAreSolved }
{}
