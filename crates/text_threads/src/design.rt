//! A flat design as the named one, with the sink of its trace lent.
ghost use Rattle.std.specs.Prelude.{◌≡◌, IfOk, string_bytes};
ghost use Rattle.step_data.specs.Options.{IsAllowed};
ghost use Rattle.design_rules.specs.Design.{IsDesign};
ghost use Rattle.system_model.specs.System.{system_of};
ghost use Rattle.system_model.specs.Trace.{run_of};
ghost use Rattle.trace_sink.specs.Puts.{Puts};
ghost use Rattle.threaded_trace.specs.Fitting.{Fits};
ghost use Rattle.design_run.specs.Lines.{run_lines};
ghost use Rattle.text_threads.specs.Told.{told_of};

use ahead_report::Report;
use flat_design::Flat;
use lent_sink::{Lender, Lent};
use port_io::Sink;
use runahead_worker::Gate;
use std::alloc::Global;
use std::marker::{Brand, PhantomData};
use std::sync::Wait;
use std::thread::Threads;
use step_data::{End, Options};
use step_model::Design;
use threaded_trace::Traced;
use timeline::Counts;
use trace_sink::TraceFault;
use whole_threads::run_whole_on_threads;

/// How a run on threads ended, and its numbers.
#[derive(Clone, Copy, Debug, PartialEq, Eq)]
pub struct Threaded {
    pub end: End,
    pub report: Report,
}

/// How a run ended, with its numbers.
fn told_of(ended: Result<End, TraceFault>, own: u64, counts: Counts) -> Result<Threaded, TraceFault>
    ensures { result ≡ told_of ended own counts }
{
    match ended {
        Ok(end) => Ok(Threaded {
            end,
            report: Report { counts, own },
        }),
        Err(fault) => Err(fault),
    }
}

/// Runs the named design with the named sink, which comes back. Its top comes in a `String`, since a call with a `&str` can't
/// name a design.
fn run_named<'a, D: Design + Send + Sync, N: Lender, K: Sink, G: Gate, R: Threads + Wait + Sync>(
    rt: &R,
    alloc: Global,
    flat: &Flat,
    top: &String,
    options: &Options,
    trace: &'a mut K,
    gate: &G,
) -> (Result<Threaded, TraceFault>, &'a mut K)
    requires design { IsDesign flat.now }
    requires system { D.system 0 ≡ system_of flat.now options.now }
    requires allowed { IsAllowed options.now }
    requires name { trace.ghost_name ≡ N.name }
    ensures same_reference { result.1.ghost_name ≡ trace.entry.ghost_name }
    ensures puts { Puts result.0 (run_lines flat.now (string_bytes top.now) options.now)
        (K.held trace.old) (K.held result.1.now) (K.faults trace.old) (K.faults result.1.now) }
    ensures end { IfOk result.0 (λ told. told.end ≡ (run_of flat.now options.now).end) }
    ensures fits { IfOk result.0 (λ told. Fits (run_of flat.now options.now).works told.report.own told.report.counts) }
{
    let lent: Lent<'a, K, N> = Lent {
        sink: trace,
        of: PhantomData,
    };
    let traced: Traced<D, Lent<'a, K, N>> = run_whole_on_threads(
        rt,
        alloc,
        flat,
        top.as_str(),
        options,
        lent,
        gate,
    );
    let Traced {
        ended,
        own,
        counts,
        trace: lent,
        ..
    } = traced;
    (told_of(ended, own, counts), lent.sink)
}

/// Runs a well-formed flat design on threads with its own kernel and solvers, and writes its trace.
pub fn run_on_threads<K: Sink, G: Gate, R: Threads + Wait + Sync>(
    rt: &R,
    alloc: Global,
    flat: &Flat,
    top: &String,
    options: &Options,
    trace: &mut K,
    gate: &G,
) -> Result<Threaded, TraceFault>
    requires design { IsDesign flat.now }
    requires allowed { IsAllowed options.now }
    ensures puts { Puts result (run_lines flat.now (string_bytes top.now) options.now)
        (K.held trace.old) (K.held trace.new) (K.faults trace.old) (K.faults trace.new) }
    ensures end { IfOk result (λ told. told.end ≡ (run_of flat.now options.now).end) }
    ensures fits { IfOk result (λ told. Fits (run_of flat.now options.now).works told.report.own told.report.counts) }
{
    let (told, _trace) = run_named::<Brand, Brand, K, G, R>(
        rt, alloc, flat, top, options, trace, gate,
    );
    told
}
