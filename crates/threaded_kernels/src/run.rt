//! A run with kernels that are made for it.
ghost use Rattle.std.specs.Prelude.{◌≡◌, OnOk, IfOk, IfSome};
ghost use Rattle.step_model.specs.declared.kernel_stage.KernelStage.TheVariants.{Unstarted};
ghost use Rattle.lockstep_model.specs.Lockstep.{lockstep};
ghost use Rattle.lockstep_model.specs.Works.{events_of};
ghost use Rattle.trace_sink.specs.Puts.{Puts};
ghost use Rattle.trace_lines.specs.Lines.{trace_lines};
ghost use Rattle.threaded_trace.specs.Fitting.{Fits, Within};
ghost use Rattle.threaded_kernels.specs.Suits.{Suits};

use crate::kernels::Kernels;
use flat_design::Flat;
use port_io::Sink;
use runahead_worker::Gate;
use std::alloc::Global;
use std::sync::Wait;
use std::thread::Threads;
use step_data::Options;
use step_model::Design;
use threaded_trace::{NO_COUNTS, Traced, trace_on_threads};
use trace_sink::TraceFault;

/// What is run: a flat design under the name of its top, with these options.
#[derive(Drop)]
pub struct Asked<'a> {
    pub flat: &'a Flat,
    pub top: &'a str,
    pub options: &'a Options,
}

/// The engine's solver and the digital kernel, or none where no memory is found.
fn engine_kernels<D: Design, M: Kernels<D>>(
    alloc: Global,
    kernels: &M,
) -> Option<(M::Solver, M::Digital)>
    ensures solver { IfSome result (λ made. M.Solver.part made.0 ≡ 0) }
    ensures digital { IfSome result (λ made. (M.Digital.state made.1).stage ≡ Unstarted) }
{
    let Ok(solver) = kernels.solver(alloc) else {
        return None;
    };
    let Ok(digital) = kernels.digital(alloc) else {
        return None;
    };
    Some((solver, digital))
}

/// A solver that runs ahead, or none where no memory is found.
fn worker_solver<D: Design, M: Kernels<D>>(alloc: Global, kernels: &M) -> Option<M::Solver>
    ensures { IfSome result (λ solver. M.Solver.part solver ≡ 0) }
{
    match kernels.solver(alloc) {
        Ok(solver) => Some(solver),
        Err(_) => None,
    }
}

/// Makes the kernels of a design, runs it on threads, and writes its trace. Without a second solver the engine runs alone.
/// Whatever happens ahead, the trace is that of lockstep.
pub fn run_kernels<
    D: Design + Send + Sync,
    M: Kernels<D>,
    W: Sink + Drop,
    G: Gate,
    R: Threads + Wait + Sync,
>(rt: &R, alloc: Global, asked: &Asked<'_>, kernels: &M, trace: W, gate: &G) -> Traced<D, W>
    requires { Suits (D.system 0) asked.now.options.now }
    ensures puts { Puts result.ended (trace_lines asked.now.flat.now asked.now.top.now asked.now.options.now (events_of (lockstep (D.system 0)).works) (lockstep (D.system 0)).end)
        (W.held trace) (W.held result.trace) (W.faults trace) (W.faults result.trace) }
    ensures end { IfOk result.ended (λ end. end ≡ (lockstep (D.system 0)).end) }

    // The numbers fit lockstep's works, and the timeline its limit.
    ensures fits { OnOk result.ended (Fits (lockstep (D.system 0)).works result.own result.counts) }
    ensures within { IfSome result.timeline (λ timeline. Within asked.now.options.now.ahead timeline.line) }
    ensures counts { IfSome result.timeline (λ timeline. result.counts ≡ timeline.line.journal.counts) }
{
    match engine_kernels(alloc, kernels) {
        Some((solver, digital)) => {
            let worker = worker_solver(alloc, kernels);
            trace_on_threads(
                rt,
                alloc,
                asked.flat,
                asked.top,
                asked.options,
                solver,
                worker,
                digital,
                trace,
                gate,
            )
        }
        None => Traced {
            ended: Err(TraceFault::Memory),
            own: 0,
            counts: NO_COUNTS,
            trace,
            timeline: None,
        },
    }
}
