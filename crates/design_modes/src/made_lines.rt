//! The lines of mode make.
ghost use Rattle.std.specs.Prelude.{◌≡◌, IfOk};
ghost use Rattle.run_counts.specs.Counts.{counts_line, made_lines};
ghost use Rattle.trace_sink.specs.Puts.{Puts, PutsLine};

use port_io::Sink;
use run_counts::{CountedRun, RunCounts, push_counts};
use std::alloc::Global;
use step_data::End;
use trace_lines::put_end;
use trace_sink::{TraceFault, put_line};

/// Writes the line of a run's numbers.
fn put_numbers<K: Sink>(
    size: u32,
    counts: &RunCounts,
    room: &mut Vec<u8>,
    trace: &mut K,
) -> Result<(), TraceFault>
    ensures { PutsLine result (counts_line size counts.now) (K.held trace.old) (K.held trace.new) (K.faults trace.old) (K.faults trace.new) }
{
    room.clear();
    match push_counts(room, size, counts) {
        Ok(()) => put_line(trace, room),
        Err(_) => Err(TraceFault::Memory),
    }
}

/// Writes the numbers of a run, and its end.
fn put_counts<K: Sink>(
    alloc: Global,
    size: u32,
    run: &CountedRun,
    trace: &mut K,
) -> Result<(), TraceFault>
    ensures { Puts result (made_lines size run.now) (K.held trace.old) (K.held trace.new) (K.faults trace.old) (K.faults trace.new) }
{
    let mut room = Vec::new(alloc);
    match put_numbers(size, &run.counts, &mut room, trace) {
        Ok(()) => put_end(&run.end, &mut room, trace),
        Err(fault) => Err(fault),
    }
}

/// Writes the numbers of a run, as those of a ladder of so many sections, and its end, which is told.
pub fn put_run<K: Sink>(
    alloc: Global,
    size: u32,
    run: &CountedRun,
    trace: &mut K,
) -> Result<End, TraceFault>
    ensures puts { Puts result (made_lines size run.now) (K.held trace.old) (K.held trace.new) (K.faults trace.old) (K.faults trace.new) }
    ensures end { IfOk result (λ end. end ≡ run.now.end) }
{
    match put_counts(alloc, size, run, trace) {
        Ok(()) => Ok(run.end),
        Err(fault) => Err(fault),
    }
}
