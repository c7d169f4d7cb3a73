//! A flat design with its solver and its kernel.
ghost use Rattle.std.specs.Prelude.{◌≡◌, IfOk};
ghost use Rattle.step_data.specs.Options.{IsAllowed};
ghost use Rattle.design_rules.specs.Design.{IsDesign};
ghost use Rattle.system_model.specs.System.{system_of};
ghost use Rattle.system_model.specs.Trace.{run_of};
ghost use Rattle.trace_sink.specs.Puts.{Puts};
ghost use Rattle.design_run.specs.Lines.{run_lines};

use design_run::run_flat;
use digital_kernel::{DigitalKernel, systems_are_run};
use flat_design::Flat;
use port_io::Sink;
use std::alloc::Global;
use step_data::{End, Options};
use step_model::Design;
use trace_sink::TraceFault;

/// Runs a flat design in lockstep with these options, and writes its trace. The named design is this one.
pub fn run_whole<D: Design, W: Sink>(
    alloc: Global,
    flat: &Flat,
    top: &str,
    options: &Options,
    trace: &mut W,
) -> Result<End, TraceFault>
    requires design { IsDesign flat.now }
    requires system { D.system 0 ≡ system_of flat.now options.now }
    requires allowed { IsAllowed options.now }
    ensures puts { Puts result (run_lines flat.now top.now options.now)
        (W.held trace.old) (W.held trace.new) (W.faults trace.old) (W.faults trace.new) }
    ensures end { IfOk result (λ end. end ≡ (run_of flat.now options.now).end) }
{
    systems_are_run();
    match DigitalKernel::new(alloc, flat) {
        Ok(kernel) => {
            let kernel: DigitalKernel<'_, D> = kernel;
            run_flat(alloc, flat, top, options, kernel, trace)
        }
        Err(_) => Err(TraceFault::Memory),
    }
}
