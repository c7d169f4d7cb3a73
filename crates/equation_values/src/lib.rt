//! What the equations of a flat design read: the frame, DOMAIN, a point and the time, lent to whoever evaluates their sides.
#![tactic(auto)]

ghost use Rattle.equation_values.specs.Evaluable.{EquationsCanBeEvaluated};

mod reader;
mod values;

pub use reader::EquationReader;
pub use values::EquationValues;

/// The equations of a well-formed design can be evaluated at each point and time, under each frame of the design. It is
/// proved, and does nothing when it runs.
pub fn equations_can_be_evaluated()
    ensures { EquationsCanBeEvaluated }
{}
