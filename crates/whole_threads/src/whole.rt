//! A flat design on threads.
ghost use Rattle.std.specs.Prelude.{◌≡◌, OnOk, IfOk, IfSome};
ghost use Rattle.step_data.specs.Options.{IsAllowed};
ghost use Rattle.design_rules.specs.Design.{IsDesign};
ghost use Rattle.system_model.specs.System.{system_of};
ghost use Rattle.system_model.specs.Trace.{run_of};
ghost use Rattle.trace_sink.specs.Puts.{Puts};
ghost use Rattle.threaded_trace.specs.Fitting.{Fits, Within};
ghost use Rattle.design_run.specs.Lines.{run_lines};

use crate::flat::FlatKernels;
use flat_design::Flat;
use port_io::Sink;
use runahead_worker::Gate;
use std::alloc::Global;
use std::sync::Wait;
use std::thread::Threads;
use step_data::Options;
use step_model::Design;
use threaded_kernels::{Asked, run_kernels};
use threaded_trace::Traced;

/// Runs a flat design on threads with these options, and writes its trace. The named design is this one. Whatever the
/// worker does, or where none can be made, the trace is that of the lockstep run.
pub fn run_whole_on_threads<
    D: Design + Send + Sync,
    W: Sink + Drop,
    G: Gate,
    R: Threads + Wait + Sync,
>(
    rt: &R,
    alloc: Global,
    flat: &Flat,
    top: &str,
    options: &Options,
    trace: W,
    gate: &G,
) -> Traced<D, W>
    requires design { IsDesign flat.now }
    requires system { D.system 0 ≡ system_of flat.now options.now }
    requires allowed { IsAllowed options.now }
    ensures puts { Puts result.ended (run_lines flat.now top.now options.now)
        (W.held trace) (W.held result.trace) (W.faults trace) (W.faults result.trace) }
    ensures end { IfOk result.ended (λ end. end ≡ (run_of flat.now options.now).end) }

    // The numbers fit lockstep's works, and the timeline its limit.
    ensures fits { OnOk result.ended (Fits (run_of flat.now options.now).works result.own result.counts) }
    ensures within { IfSome result.timeline (λ timeline. Within options.now.ahead timeline.line) }
    ensures counts { IfSome result.timeline (λ timeline. result.counts ≡ timeline.line.journal.counts) }
{
    let kernels: FlatKernels<'_, D> = FlatKernels::new(flat, options);
    let asked = Asked { flat, top, options };
    run_kernels(rt, alloc, &asked, &kernels, trace, gate)
}
