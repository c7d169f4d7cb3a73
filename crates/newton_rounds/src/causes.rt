//! The causes of a refusal.
ghost use Rattle.std.specs.Prelude.{◌≡◌};
ghost use Rattle.design_meaning.specs.Newton.{of_evaluation as evaluation_of, of_solution as solution_by, of_correction as correction_of};

use design_meaning::EvalFault;
use fix_core::NumFault;
use lin_solve::LinFault;
use message_codes::{SINGULAR, SOLVER_OVERFLOW};
use step_data::Cause;

/// The cause that is a code alone.
pub fn cause(code: u8) -> Cause
    ensures { result ≡ record { code = code; column = 0 } }
{
    Cause { code, column: 0 }
}

/// An evaluation's fault as a cause.
pub fn of_evaluation(evaluated: Result<(), EvalFault>) -> Result<(), Cause>
    ensures { result ≡ evaluation_of evaluated }
{
    match evaluated {
        Ok(()) => Ok(()),
        Err(fault) => Err(cause(fault.code())),
    }
}

/// A linear system's fault as a cause, which has the column where the system is singular.
pub fn of_solution(solved: Result<(), LinFault>) -> Result<(), Cause>
    ensures { result ≡ solution_by solved }
{
    match solved {
        Ok(()) => Ok(()),
        Err(LinFault::Singular(column)) => Err(Cause {
            code: SINGULAR,
            column,
        }),
        Err(LinFault::Overflow) => Err(cause(SOLVER_OVERFLOW)),
    }
}

/// A correction that is too large counts as an overflow of the linear system.
pub fn of_correction(corrected: Result<(), NumFault>) -> Result<(), Cause>
    ensures { result ≡ correction_of corrected }
{
    match corrected {
        Ok(()) => Ok(()),
        Err(_) => Err(cause(SOLVER_OVERFLOW)),
    }
}
