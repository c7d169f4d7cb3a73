//! A flat design with its solver, over any kernel of it.
ghost use Rattle.std.specs.Prelude.{◌≡◌, IfOk};
ghost use Rattle.step_data.specs.Options.{IsAllowed};
ghost use Rattle.step_model.specs.declared.kernel_stage.KernelStage.TheVariants.{Unstarted};
ghost use Rattle.design_rules.specs.Design.{IsDesign};
ghost use Rattle.system_model.specs.System.{system_of};
ghost use Rattle.system_model.specs.Trace.{run_of};
ghost use Rattle.trace_sink.specs.Puts.{Puts};
ghost use Rattle.design_run.specs.Lines.{run_lines};

use fixed_solver::{FixedSolver, systems_are_solved};
use flat_design::Flat;
use lockstep_run::run_in_lockstep;
use port_io::Sink;
use std::alloc::Global;
use step_data::{End, Options};
use step_model::{Design, Kernel};
use trace_sink::TraceFault;

/// Runs a flat design in lockstep with these options, and writes its trace. The named design is this one; its kernel isn't
/// started yet.
pub fn run_flat<D: Design, K: Kernel<D> + Drop, W: Sink>(
    alloc: Global,
    flat: &Flat,
    top: &str,
    options: &Options,
    kernel: K,
    trace: &mut W,
) -> Result<End, TraceFault>
    requires design { IsDesign flat.now }
    requires system { D.system 0 ≡ system_of flat.now options.now }
    requires allowed { IsAllowed options.now }
    requires stage { (K.state kernel).stage ≡ Unstarted }
    ensures puts { Puts result (run_lines flat.now top.now options.now)
        (W.held trace.old) (W.held trace.new) (W.faults trace.old) (W.faults trace.new) }
    ensures end { IfOk result (λ end. end ≡ (run_of flat.now options.now).end) }
{
    systems_are_solved();
    match FixedSolver::new(alloc, flat, options) {
        Ok(solver) => {
            let solver: FixedSolver<'_, D> = solver;
            run_in_lockstep(alloc, flat, top, options, solver, kernel, trace)
        }
        Err(_) => Err(TraceFault::Memory),
    }
}
