//! A flat design as the named one.
ghost use Rattle.std.specs.Prelude.{◌≡◌, IfOk, string_bytes};
ghost use Rattle.step_data.specs.Options.{IsAllowed};
ghost use Rattle.design_rules.specs.Design.{IsDesign};
ghost use Rattle.system_model.specs.System.{system_of};
ghost use Rattle.system_model.specs.Trace.{run_of};
ghost use Rattle.trace_sink.specs.Puts.{Puts};
ghost use Rattle.design_run.specs.Lines.{run_lines};
ghost use Rattle.design_modes.specs.Report.{design_report};

use crate::replay_whole::replay_whole;
use flat_design::Flat;
use port_io::Sink;
use replay_run::Replayed;
use std::alloc::Global;
use std::marker::Brand;
use step_data::Options;
use step_model::Design;
use step_schedule::Step;
use trace_sink::TraceFault;

/// Replays the named design. Its top comes in a `String`, since a call with a `&str` can't name a design.
fn replay_named<D: Design, K: Sink>(
    alloc: Global,
    flat: &Flat,
    top: &String,
    options: &Options,
    schedule: &[Step],
    trace: &mut K,
) -> Result<Replayed, TraceFault>
    requires design { IsDesign flat.now }
    requires system { D.system 0 ≡ system_of flat.now options.now }
    requires allowed { IsAllowed options.now }
    ensures puts { Puts result (run_lines flat.now (string_bytes top.now) options.now)
        (K.held trace.old) (K.held trace.new) (K.faults trace.old) (K.faults trace.new) }
    ensures end { IfOk result (λ told. told.end ≡ (run_of flat.now options.now).end) }
    ensures report { IfOk result (λ told. told.report ≡ design_report flat.now options.now schedule.now) }
{
    replay_whole::<D, K>(alloc, flat, top.as_str(), options, schedule, trace)
}

/// Replays a well-formed flat design with its own kernel and solvers, and writes its trace.
pub fn replay_design<K: Sink>(
    alloc: Global,
    flat: &Flat,
    top: &String,
    options: &Options,
    schedule: &[Step],
    trace: &mut K,
) -> Result<Replayed, TraceFault>
    requires design { IsDesign flat.now }
    requires allowed { IsAllowed options.now }
    ensures puts { Puts result (run_lines flat.now (string_bytes top.now) options.now)
        (K.held trace.old) (K.held trace.new) (K.faults trace.old) (K.faults trace.new) }
    ensures end { IfOk result (λ told. told.end ≡ (run_of flat.now options.now).end) }
    ensures report { IfOk result (λ told. told.report ≡ design_report flat.now options.now schedule.now) }
{
    replay_named::<Brand, K>(alloc, flat, top, options, schedule, trace)
}
