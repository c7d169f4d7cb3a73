//! The lines of events, and the last line. The room of the line before is used again.
ghost use Rattle.trace_text.specs.Trace.{event_line, end_line};
ghost use Rattle.trace_sink.specs.Puts.{Puts, PutsLine};
ghost use Rattle.trace_lines.specs.Lines.{event_lines};

use commit_trace::{last, line};
use flat_design::Enumeration;
use port_io::Sink;
use step_data::{End, Event};
use trace_sink::{TraceFault, put_line};

/// Writes the line of an event.
fn put_event<K: Sink>(
    event: &Event,
    enums: &[Enumeration],
    room: &mut Vec<u8>,
    sink: &mut K,
) -> Result<(), TraceFault>
    ensures { PutsLine result (event_line enums.now event.now) (K.held sink.old) (K.held sink.new) (K.faults sink.old) (K.faults sink.new) }
{
    room.clear();
    match line(event, enums, room) {
        Ok(()) => put_line(sink, room),
        Err(_) => Err(TraceFault::Memory),
    }
}

/// Writes the line of each event, in order. The enumerations are those of the events' design.
pub fn put_events<K: Sink>(
    events: &[Event],
    enums: &[Enumeration],
    room: &mut Vec<u8>,
    sink: &mut K,
) -> Result<(), TraceFault>
    ensures { Puts result (event_lines enums.now events.now) (K.held sink.old) (K.held sink.new) (K.faults sink.old) (K.faults sink.new) }
{
    for event in events {
        match put_event(event, enums, room, sink) {
            Ok(()) => {}
            Err(fault) => return Err(fault),
        }
    }
    Ok(())
}

/// Writes the last line of a trace: the stop time was reached, or the refusal with its detail.
pub fn put_end<K: Sink>(end: &End, room: &mut Vec<u8>, sink: &mut K) -> Result<(), TraceFault>
    ensures { PutsLine result (end_line end.now) (K.held sink.old) (K.held sink.new) (K.faults sink.old) (K.faults sink.new) }
{
    room.clear();
    match last(end, room) {
        Ok(()) => put_line(sink, room),
        Err(_) => Err(TraceFault::Memory),
    }
}
