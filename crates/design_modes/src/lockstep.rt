//! A flat design as the named one.
ghost use Rattle.std.specs.Prelude.{◌≡◌, IfOk, string_bytes};
ghost use Rattle.step_data.specs.Options.{IsAllowed};
ghost use Rattle.design_rules.specs.Design.{IsDesign};
ghost use Rattle.system_model.specs.System.{system_of};
ghost use Rattle.system_model.specs.Trace.{run_of};
ghost use Rattle.trace_sink.specs.Puts.{Puts};
ghost use Rattle.design_run.specs.Lines.{run_lines};

use crate::lockstep_whole::run_whole;
use flat_design::Flat;
use port_io::Sink;
use std::alloc::Global;
use std::marker::Brand;
use step_data::{End, Options};
use step_model::Design;
use trace_sink::TraceFault;

/// Runs the named design. Its top comes in a `String`, since a call with a `&str` can't name a design.
fn run_named<D: Design, K: Sink>(
    alloc: Global,
    flat: &Flat,
    top: &String,
    options: &Options,
    trace: &mut K,
) -> Result<End, TraceFault>
    requires design { IsDesign flat.now }
    requires system { D.system 0 ≡ system_of flat.now options.now }
    requires allowed { IsAllowed options.now }
    ensures puts { Puts result (run_lines flat.now (string_bytes top.now) options.now)
        (K.held trace.old) (K.held trace.new) (K.faults trace.old) (K.faults trace.new) }
    ensures end { IfOk result (λ end. end ≡ (run_of flat.now options.now).end) }
{
    run_whole::<D, K>(alloc, flat, top.as_str(), options, trace)
}

/// Runs a well-formed flat design in lockstep with its own kernel and solver, and writes its trace.
pub fn run_design<K: Sink>(
    alloc: Global,
    flat: &Flat,
    top: &String,
    options: &Options,
    trace: &mut K,
) -> Result<End, TraceFault>
    requires design { IsDesign flat.now }
    requires allowed { IsAllowed options.now }
    ensures puts { Puts result (run_lines flat.now (string_bytes top.now) options.now)
        (K.held trace.old) (K.held trace.new) (K.faults trace.old) (K.faults trace.new) }
    ensures end { IfOk result (λ end. end ≡ (run_of flat.now options.now).end) }
{
    run_named::<Brand, K>(alloc, flat, top, options, trace)
}
