//! The lines of events.

ghost use Rattle.std.specs.Prelude.{◌≡◌};
ghost use Rattle.line_sink.specs.Shown.{shown, Gained, Stopped, told};
ghost use Rattle.line_sink.specs.Laws.{gained_nothing, gained_joins, stopped_behind, stopped_ends, gained_lost};

use event_sink::{EventSink, SinkFault};
use flat_design::Enumeration;
use port_io::Sink;
use std::alloc::Global;
use step_data::EventList;
use trace_lines::put_events;
use trace_sink::TraceFault;

/// Writes the line of each event to a trace. The enumerations are those of the events' design; the room of a line is used
/// again.
#[derive(Drop)]
pub struct LineSink<'a, W: Sink + Drop> {
    pub enums: &'a [Enumeration],
    pub room: Vec<u8>,
    pub trace: W,
}

impl<'a, W: Sink + Drop> LineSink<'a, W> {
    /// Lines behind what a trace holds.
    pub fn new(alloc: Global, enums: &'a [Enumeration], trace: W) -> LineSink<'a, W>
        ensures enums { result.enums.now ≡ enums.now }
        ensures trace { result.trace ≡ trace }
    {
        LineSink {
            enums,
            room: Vec::new(alloc),
            trace,
        }
    }
}

/// The fault of a trace, as whoever hands events over sees it.
fn told(written: Result<(), TraceFault>) -> Result<(), SinkFault>
    ensures { result ≡ told written }
{
    match written {
        Ok(()) => Ok(()),
        Err(TraceFault::WriteFault) => Err(SinkFault::Failed),
        Err(TraceFault::Memory) => Err(SinkFault::Memory),
    }
}

impl<'a, W: Sink + Drop> EventSink for LineSink<'a, W> {
    ghost gained = { λ a b events. Gained (shown a.enums.now (W.held a.trace) (W.faults a.trace)) (shown b.enums.now (W.held b.trace) (W.faults b.trace)) events };

    ghost stopped = { λ fault a b events. Stopped fault (shown a.enums.now (W.held a.trace) (W.faults a.trace)) (shown b.enums.now (W.held b.trace) (W.faults b.trace)) events };

    ghost faults = { λ a. W.faults a.trace };

    fn take_in(&mut self, events: &EventList) -> Result<(), SinkFault> {
        told(put_events(
            events.as_slice(),
            self.enums,
            &mut self.room,
            &mut self.trace,
        ))
    }

    ghost nothing = { λ a. gained_nothing (shown a.enums.now (W.held a.trace) (W.faults a.trace)) };

    ghost joins = { λ a b c. gained_joins (shown a.enums.now (W.held a.trace) (W.faults a.trace)) (shown b.enums.now (W.held b.trace) (W.faults b.trace)) (shown c.enums.now (W.held c.trace) (W.faults c.trace)) };

    ghost stops = { λ fault a b c. stopped_behind fault (shown a.enums.now (W.held a.trace) (W.faults a.trace)) (shown b.enums.now (W.held b.trace) (W.faults b.trace)) (shown c.enums.now (W.held c.trace) (W.faults c.trace)) };

    ghost ends = { λ fault a b. stopped_ends fault (shown a.enums.now (W.held a.trace) (W.faults a.trace)) (shown b.enums.now (W.held b.trace) (W.faults b.trace)) };

    ghost lost = { λ a b. gained_lost (shown a.enums.now (W.held a.trace) (W.faults a.trace)) (shown b.enums.now (W.held b.trace) (W.faults b.trace)) };
}
