//! A flat design with its solver, over any kernel of it.
ghost use Rattle.std.specs.Prelude.{◌≡◌, IfOk};
ghost use Rattle.step_data.specs.Options.{IsAllowed};
ghost use Rattle.step_model.specs.declared.kernel_stage.KernelStage.TheVariants.{Unstarted};
ghost use Rattle.design_rules.specs.Design.{IsDesign};
ghost use Rattle.system_model.specs.System.{system_of};
ghost use Rattle.system_model.specs.Trace.{run_of};
ghost use Rattle.run_counts.specs.Counts.{counted};

use counted_run::count_in_lockstep;
use fixed_solver::{FixedSolver, systems_are_solved};
use flat_design::Flat;
use run_counts::CountedRun;
use std::alloc::{AllocError, Global};
use step_data::Options;
use step_model::{Design, Kernel};

/// Runs a flat design in lockstep with these options, and tells its numbers and its end. The named design is this one; its
/// kernel isn't started yet.
pub fn count_flat<D: Design, K: Kernel<D> + Drop>(
    alloc: Global,
    flat: &Flat,
    options: &Options,
    kernel: K,
) -> Result<CountedRun, AllocError>
    requires design { IsDesign flat.now }
    requires system { D.system 0 ≡ system_of flat.now options.now }
    requires allowed { IsAllowed options.now }
    requires stage { (K.state kernel).stage ≡ Unstarted }
    ensures { IfOk result (λ run. run ≡ counted (run_of flat.now options.now)) }
{
    systems_are_solved();
    match FixedSolver::new(alloc, flat, options) {
        Ok(solver) => {
            let solver: FixedSolver<'_, D> = solver;
            count_in_lockstep(alloc, options, solver, kernel)
        }
        Err(fault) => Err(fault),
    }
}
