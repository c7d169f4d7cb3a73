//! Designs whose steps have the same coefficients at every point: no explicit equation is a choice, and each of their slopes is
//! constant. No call takes memory.
#![tactic(auto)]

ghost use Rattle.step_matrices.specs.Laws.{StepsHaveTheirMatrix};

mod linear;

pub use linear::are_linear;

/// The set of a step of such a design has the same coefficients at every point, which depend on the step's length and method
/// alone. It is proved, and does nothing when it runs.
pub fn steps_have_their_matrix()
    ensures { StepsHaveTheirMatrix }
{}
