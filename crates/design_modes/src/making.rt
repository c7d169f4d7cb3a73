//! A flat design whose run is counted.
ghost use Rattle.std.specs.Prelude.{◌≡◌, IfOk};
ghost use Rattle.step_data.specs.Options.{IsAllowed};
ghost use Rattle.design_rules.specs.Design.{IsDesign};
ghost use Rattle.system_model.specs.Trace.{run_of};
ghost use Rattle.trace_sink.specs.Puts.{Puts};
ghost use Rattle.run_counts.specs.Counts.{counted, made_lines};

use crate::counted_whole::count_design;
use crate::made_lines::put_run;
use flat_design::Flat;
use port_io::Sink;
use std::alloc::Global;
use std::marker::Brand;
use step_data::{End, Options};
use trace_sink::TraceFault;

/// Runs a well-formed flat design in lockstep, and writes the numbers of its run, as those of a ladder of so many sections, and
/// its end. Nothing is written before the run is over.
pub fn make_design<K: Sink>(
    alloc: Global,
    flat: &Flat,
    size: u32,
    options: &Options,
    trace: &mut K,
) -> Result<End, TraceFault>
    requires design { IsDesign flat.now }
    requires allowed { IsAllowed options.now }
    ensures puts { Puts result (made_lines size (counted (run_of flat.now options.now)))
        (K.held trace.old) (K.held trace.new) (K.faults trace.old) (K.faults trace.new) }
    ensures end { IfOk result (λ end. end ≡ (run_of flat.now options.now).end) }
{
    match count_design::<Brand>(alloc, flat, options) {
        Ok(run) => put_run(alloc, size, &run, trace),
        Err(_) => Err(TraceFault::Memory),
    }
}
