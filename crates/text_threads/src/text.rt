//! From a text to its trace on threads and the note of the run's numbers.
ghost use Rattle.std.specs.Prelude.{◌≤◌, length, string_bytes};
ghost use Rattle.step_data.specs.Options.{IsAllowed};
ghost use Rattle.program_output.specs.Port.{port};
ghost use Rattle.text_threads.specs.TextThreads.{TellsRun, TellsUnread, RunsTextOnThreads};

use crate::design::{Threaded, run_on_threads};
use ahead_report::report_note;
use design_reading::{Unread, read_design};
use port_io::Sink;
use program_output::{Status, tell};
use run_status::end_status;
use runahead_worker::Gate;
use std::alloc::Global;
use std::sync::Wait;
use std::thread::Threads;
use step_data::Options;
use text_designs::texts_give_designs;
use trace_sink::TraceFault;

/// Writes the note of a run's numbers, where its trace is written, and answers the status.
fn tell_report<E: Sink>(alloc: Global, ran: Result<Threaded, TraceFault>, notes: &mut E) -> Status
    ensures { TellsRun ran result (port (E.held notes.old) (E.held notes.new) (E.faults notes.old) (E.faults notes.new)) }
{
    match ran {
        Ok(told) => match report_note(alloc, &told.report) {
            Ok(note) => tell(notes, &note, end_status(told.end)),
            Err(_) => Status::Memory,
        },
        Err(TraceFault::WriteFault) => Status::WriteFault,
        Err(TraceFault::Memory) => Status::Memory,
    }
}

/// Writes the note of a text that is refused.
fn refuse<E: Sink>(unread: Unread, notes: &mut E) -> Status
    ensures { TellsUnread unread result (port (E.held notes.old) (E.held notes.new) (E.faults notes.old) (E.faults notes.new)) }
{
    match unread {
        Unread::Refused(note) => tell(notes, &note, Status::DesignRefused),
        Unread::Memory => Status::Memory,
    }
}

/// Reads a text of at most 1,048,576 bytes, and runs the flat design of its top on threads, or writes the note of the refusal
/// that comes first. Behind a run its numbers are noted.
pub fn simulate_on_threads<K: Sink, E: Sink, G: Gate, R: Threads + Wait + Sync>(
    rt: &R,
    alloc: Global,
    text: &[u8],
    top: &String,
    options: &Options,
    trace: &mut K,
    notes: &mut E,
    gate: &G,
) -> Status
    requires short { length text.now ≤ 1048576 }
    requires allowed { IsAllowed options.now }
    ensures { RunsTextOnThreads result text.now (string_bytes top.now) options.now
        (port (K.held trace.old) (K.held trace.new) (K.faults trace.old) (K.faults trace.new))
        (port (E.held notes.old) (E.held notes.new) (E.faults notes.old) (E.faults notes.new)) }
{
    texts_give_designs();
    match read_design(alloc, text, top.as_str()) {
        Ok(flat) => {
            let ran = run_on_threads(rt, alloc, &flat, top, options, trace, gate);
            tell_report(alloc, ran, notes)
        }
        Err(unread) => refuse(unread, notes),
    }
}
