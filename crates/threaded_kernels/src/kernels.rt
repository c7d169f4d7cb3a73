//! What makes the kernels of a design.
ghost use Rattle.std.specs.Prelude.{◌≡◌, IfOk};
ghost use Rattle.step_model.specs.declared.kernel_stage.KernelStage.TheVariants.{Unstarted};

use std::alloc::{AllocError, Global};
use step_model::{Design, Kernel, Stepper};

/// Makes the kernels of the named design, each time from its start. A solver may go to another thread.
pub trait Kernels<D: Design> {
    type Solver: Stepper<D> + Drop + Send;

    type Digital: Kernel<D> + Drop;

    /// A solver of the whole design.
    fn solver(&self, alloc: Global) -> Result<Self::Solver, AllocError>
        ensures { IfOk result (λ solver. Self.Solver.part solver ≡ 0) };

    /// The digital kernel, which isn't started.
    fn digital(&self, alloc: Global) -> Result<Self::Digital, AllocError>
        ensures { IfOk result (λ kernel. (Self.Digital.state kernel).stage ≡ Unstarted) };
}
