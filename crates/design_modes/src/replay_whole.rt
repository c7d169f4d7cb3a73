//! A flat design with its solvers and its kernel.
ghost use Rattle.std.specs.Prelude.{◌≡◌, IfOk};
ghost use Rattle.step_data.specs.Options.{IsAllowed};
ghost use Rattle.design_rules.specs.Design.{IsDesign};
ghost use Rattle.system_model.specs.System.{system_of};
ghost use Rattle.system_model.specs.Trace.{run_of};
ghost use Rattle.trace_sink.specs.Puts.{Puts};
ghost use Rattle.design_run.specs.Lines.{run_lines};
ghost use Rattle.design_modes.specs.Report.{design_report};

use crate::replay_flat::replay_solved;
use digital_kernel::{DigitalKernel, systems_are_run};
use flat_design::Flat;
use port_io::Sink;
use replay_run::Replayed;
use std::alloc::Global;
use step_data::Options;
use step_model::Design;
use step_schedule::Step;
use trace_sink::TraceFault;

/// Replays a flat design with these options by a schedule of steps, and writes its trace. The named design is this one.
pub fn replay_whole<D: Design, W: Sink>(
    alloc: Global,
    flat: &Flat,
    top: &str,
    options: &Options,
    schedule: &[Step],
    trace: &mut W,
) -> Result<Replayed, TraceFault>
    requires design { IsDesign flat.now }
    requires system { D.system 0 ≡ system_of flat.now options.now }
    requires allowed { IsAllowed options.now }
    ensures puts { Puts result (run_lines flat.now top.now options.now)
        (W.held trace.old) (W.held trace.new) (W.faults trace.old) (W.faults trace.new) }
    ensures end { IfOk result (λ told. told.end ≡ (run_of flat.now options.now).end) }
    ensures report { IfOk result (λ told. told.report ≡ design_report flat.now options.now schedule.now) }
{
    systems_are_run();
    match DigitalKernel::new(alloc, flat) {
        Ok(kernel) => {
            let kernel: DigitalKernel<'_, D> = kernel;
            replay_solved(alloc, flat, top, options, schedule, kernel, trace)
        }
        Err(_) => Err(TraceFault::Memory),
    }
}
