//! The lines of a header. The room of the line before is used again.
ghost use Rattle.std.specs.Prelude.{◌<◌, ◌++◌};
ghost use Rattle.flat_design.specs.Order.{unknowns, unknown_at, unknown_count};
ghost use Rattle.trace_text.specs.Trace.{unknown_line, signal_line, threshold_line};
ghost use Rattle.trace_sink.specs.Puts.{Puts, PutsLine};
ghost use Rattle.trace_lines.specs.Lines.{options_line, numbered_lines, name_lines, header_lines};

use commit_trace::{options_line, signal_line, threshold_line, unknown_line};
use flat_design::{Flat, Signal, Threshold, numbers_find_unknowns};
use port_io::Sink;
use step_data::Options;
use trace_sink::{TraceFault, put_line};

/// Writes the first line.
#[tactic(auto, unfolding(crate::specs::Lines::options_line))]
fn put_options<K: Sink>(
    top: &str,
    options: &Options,
    room: &mut Vec<u8>,
    sink: &mut K,
) -> Result<(), TraceFault>
    ensures { PutsLine result (options_line top.now options.now) (K.held sink.old) (K.held sink.new) (K.faults sink.old) (K.faults sink.new) }
{
    room.clear();
    match options_line(top, options, room) {
        Ok(()) => put_line(sink, room),
        Err(_) => Err(TraceFault::Memory),
    }
}

fn put_unknown<K: Sink>(
    flat: &Flat,
    number: usize,
    room: &mut Vec<u8>,
    sink: &mut K,
) -> Result<(), TraceFault>
    requires { number < unknown_count flat.now }
    ensures { PutsLine result (unknown_line flat.now number (unknown_at flat.now number)) (K.held sink.old) (K.held sink.new) (K.faults sink.old) (K.faults sink.new) }
{
    room.clear();
    match unknown_line(flat, number, room) {
        Ok(()) => put_line(sink, room),
        Err(_) => Err(TraceFault::Memory),
    }
}

fn put_signal<K: Sink>(
    number: u64,
    signal: &Signal,
    room: &mut Vec<u8>,
    sink: &mut K,
) -> Result<(), TraceFault>
    ensures { PutsLine result (signal_line number signal.now) (K.held sink.old) (K.held sink.new) (K.faults sink.old) (K.faults sink.new) }
{
    room.clear();
    match signal_line(number, signal, room) {
        Ok(()) => put_line(sink, room),
        Err(_) => Err(TraceFault::Memory),
    }
}

fn put_threshold<K: Sink>(
    number: u64,
    threshold: &Threshold,
    room: &mut Vec<u8>,
    sink: &mut K,
) -> Result<(), TraceFault>
    ensures { PutsLine result (threshold_line number threshold.now) (K.held sink.old) (K.held sink.new) (K.faults sink.old) (K.faults sink.new) }
{
    room.clear();
    match threshold_line(number, threshold, room) {
        Ok(()) => put_line(sink, room),
        Err(_) => Err(TraceFault::Memory),
    }
}

/// Writes the lines of the unknowns.
fn put_unknowns<K: Sink>(flat: &Flat, room: &mut Vec<u8>, sink: &mut K) -> Result<(), TraceFault>
    ensures { Puts result (numbered_lines (unknown_line flat.now) 0 (unknowns flat.now)) (K.held sink.old) (K.held sink.new) (K.faults sink.old) (K.faults sink.new) }
{
    numbers_find_unknowns();
    for number in 0..flat.unknown_count() {
        match put_unknown(flat, number, room, sink) {
            Ok(()) => {}
            Err(fault) => return Err(fault),
        }
    }
    Ok(())
}

/// Writes the lines of the signals.
fn put_signals<K: Sink>(
    signals: &[Signal],
    room: &mut Vec<u8>,
    sink: &mut K,
) -> Result<(), TraceFault>
    ensures { Puts result (numbered_lines signal_line 0 signals.now) (K.held sink.old) (K.held sink.new) (K.faults sink.old) (K.faults sink.new) }
{
    for number in 0..signals.len() {
        match put_signal(number as u64, &signals[number], room, sink) {
            Ok(()) => {}
            Err(fault) => return Err(fault),
        }
    }
    Ok(())
}

/// Writes the lines of the thresholds.
fn put_thresholds<K: Sink>(
    thresholds: &[Threshold],
    room: &mut Vec<u8>,
    sink: &mut K,
) -> Result<(), TraceFault>
    ensures { Puts result (numbered_lines threshold_line 0 thresholds.now) (K.held sink.old) (K.held sink.new) (K.faults sink.old) (K.faults sink.new) }
{
    for number in 0..thresholds.len() {
        match put_threshold(number as u64, &thresholds[number], room, sink) {
            Ok(()) => {}
            Err(fault) => return Err(fault),
        }
    }
    Ok(())
}

/// Writes the lines of signals and thresholds.
fn put_names<K: Sink>(flat: &Flat, room: &mut Vec<u8>, sink: &mut K) -> Result<(), TraceFault>
    ensures { Puts result (name_lines flat.now) (K.held sink.old) (K.held sink.new) (K.faults sink.old) (K.faults sink.new) }
{
    match put_signals(flat.signals(), room, sink) {
        Ok(()) => put_thresholds(flat.thresholds(), room, sink),
        Err(fault) => Err(fault),
    }
}

/// Writes all lines but the first.
fn put_objects<K: Sink>(flat: &Flat, room: &mut Vec<u8>, sink: &mut K) -> Result<(), TraceFault>
    ensures { Puts result (numbered_lines (unknown_line flat.now) 0 (unknowns flat.now) ++ name_lines flat.now) (K.held sink.old) (K.held sink.new) (K.faults sink.old) (K.faults sink.new) }
{
    match put_unknowns(flat, room, sink) {
        Ok(()) => put_names(flat, room, sink),
        Err(fault) => Err(fault),
    }
}

/// Writes the header: the version, the name of the top entity and the options, and a line for each unknown, signal and
/// threshold, by number.
pub fn put_header<K: Sink>(
    flat: &Flat,
    top: &str,
    options: &Options,
    room: &mut Vec<u8>,
    sink: &mut K,
) -> Result<(), TraceFault>
    ensures { Puts result (header_lines flat.now top.now options.now) (K.held sink.old) (K.held sink.new) (K.faults sink.old) (K.faults sink.new) }
{
    match put_options(top, options, room, sink) {
        Ok(()) => put_objects(flat, room, sink),
        Err(fault) => Err(fault),
    }
}
