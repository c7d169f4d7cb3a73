//! The place at which a process evaluates.
ghost use Rattle.std.specs.Prelude.{◌≡◌};
ghost use Rattle.expr_eval.specs.Condition.{CanEvaluate};
ghost use Rattle.cycle_meaning.specs.World.{Context, Local, readings_at, refusal, evaluated};

use ams_value::Val;
use expr_eval::{Values, value};
use flat_expr::FlatExpr;
use step_data::Refusal;

/// Lends what a process reads at a statement, and tells which process it is.
pub trait Activation: Values {
    /// The design, the number of the process, the time, the delta and the unknowns.
    ghost context: { Self → Context };

    /// The world and the variables.
    ghost local: { Self → Local };

    fn process(&self) -> u32
        ensures { result ≡ (context self.now).process };

    ghost reads: { (a : Self) → readings_at (context a) (local a) ≡ Self.readings a };
}

/// The refusal of the process with this number of a message.
pub fn refusal<A: Activation>(at: &A, code: u8) -> Refusal
    ensures { result ≡ refusal (A.context at.now) code }
{
    Refusal {
        code,
        detail: Some(at.process()),
    }
}

/// The value of an expression, or the process's refusal.
pub fn evaluated<A: Activation>(at: &A, expression: &FlatExpr) -> Result<Val, Refusal>
    requires { CanEvaluate (A.readings at.now) expression.now }
    ensures { result ≡ evaluated (A.context at.now) (A.local at.now) expression.now }
{
    match value(expression, at) {
        Ok(found) => Ok(found),
        Err(fault) => Err(refusal(at, fault.code())),
    }
}
