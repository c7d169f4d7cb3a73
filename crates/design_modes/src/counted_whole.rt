//! A flat design with its solver and its kernel.
ghost use Rattle.std.specs.Prelude.{◌≡◌, IfOk};
ghost use Rattle.step_data.specs.Options.{IsAllowed};
ghost use Rattle.design_rules.specs.Design.{IsDesign};
ghost use Rattle.system_model.specs.System.{system_of};
ghost use Rattle.system_model.specs.Trace.{run_of};
ghost use Rattle.run_counts.specs.Counts.{counted};

use crate::counted_flat::count_flat;
use digital_kernel::{DigitalKernel, systems_are_run};
use flat_design::Flat;
use run_counts::CountedRun;
use std::alloc::{AllocError, Global};
use step_data::Options;
use step_model::Design;

/// Runs a flat design in lockstep with these options, and tells the numbers of its run and its end. The named design is this
/// one.
pub fn count_design<D: Design>(
    alloc: Global,
    flat: &Flat,
    options: &Options,
) -> Result<CountedRun, AllocError>
    requires design { IsDesign flat.now }
    requires system { D.system 0 ≡ system_of flat.now options.now }
    requires allowed { IsAllowed options.now }
    ensures { IfOk result (λ run. run ≡ counted (run_of flat.now options.now)) }
{
    systems_are_run();
    match DigitalKernel::new(alloc, flat) {
        Ok(kernel) => {
            let kernel: DigitalKernel<'_, D> = kernel;
            count_flat(alloc, flat, options, kernel)
        }
        Err(fault) => Err(fault),
    }
}
