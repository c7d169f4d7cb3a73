//! A flat design with its solvers, over any kernel of it.
ghost use Rattle.std.specs.Prelude.{◌≡◌, IfOk};
ghost use Rattle.step_data.specs.Options.{IsAllowed};
ghost use Rattle.step_model.specs.declared.kernel_stage.KernelStage.TheVariants.{Unstarted};
ghost use Rattle.design_rules.specs.Design.{IsDesign};
ghost use Rattle.system_model.specs.System.{system_of};
ghost use Rattle.system_model.specs.Trace.{run_of};
ghost use Rattle.trace_sink.specs.Puts.{Puts};
ghost use Rattle.design_run.specs.Lines.{run_lines};
ghost use Rattle.design_modes.specs.Report.{design_report};

use fixed_solver::{FixedSolver, systems_are_solved};
use flat_design::Flat;
use port_io::Sink;
use replay_run::{Replayed, run_replay};
use std::alloc::{AllocError, Global};
use step_data::Options;
use step_model::{Design, Kernel};
use step_schedule::Step;
use trace_sink::TraceFault;

/// The engine's solver and the worker's.
fn two_solvers<'a, D: Design>(
    alloc: Global,
    flat: &'a Flat,
    options: &Options,
) -> Result<(FixedSolver<'a, D>, FixedSolver<'a, D>), AllocError>
    requires design { IsDesign flat.now }
    requires system { D.system 0 ≡ system_of flat.now options.now }
    ensures engine { IfOk result (λ both. both.0 ≡ 0) }
    ensures worker { IfOk result (λ both. both.1 ≡ 0) }
{
    systems_are_solved();
    let engine: FixedSolver<'a, D> = FixedSolver::new(alloc, flat, options)?;
    let worker: FixedSolver<'a, D> = FixedSolver::new(alloc, flat, options)?;
    Ok((engine, worker))
}

/// Replays a flat design with these options by a schedule of steps, and writes its trace. The named design is this one; its kernel
/// isn't started yet.
pub fn replay_solved<D: Design, K: Kernel<D> + Drop, W: Sink>(
    alloc: Global,
    flat: &Flat,
    top: &str,
    options: &Options,
    schedule: &[Step],
    kernel: K,
    trace: &mut W,
) -> Result<Replayed, TraceFault>
    requires design { IsDesign flat.now }
    requires system { D.system 0 ≡ system_of flat.now options.now }
    requires allowed { IsAllowed options.now }
    requires stage { (K.state kernel).stage ≡ Unstarted }
    ensures puts { Puts result (run_lines flat.now top.now options.now)
        (W.held trace.old) (W.held trace.new) (W.faults trace.old) (W.faults trace.new) }
    ensures end { IfOk result (λ told. told.end ≡ (run_of flat.now options.now).end) }
    ensures report { IfOk result (λ told. told.report ≡ design_report flat.now options.now schedule.now) }
{
    match two_solvers::<D>(alloc, flat, options) {
        Ok((engine, worker)) => {
            run_replay(
                alloc, flat, top, options, schedule, engine, worker, kernel, trace,
            )
        }
        Err(_) => Err(TraceFault::Memory),
    }
}
