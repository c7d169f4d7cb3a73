//! From a text to its trace and the note of its report.
ghost use Rattle.std.specs.Prelude.{◌≤◌, length, string_bytes};
ghost use Rattle.step_data.specs.Options.{IsAllowed};
ghost use Rattle.program_output.specs.Port.{port};
ghost use Rattle.text_modes.specs.Start.{most_bytes};
ghost use Rattle.text_modes.specs.TextReplay.{TellsReplay, TellsUnread, ReplaysText};

use ahead_report::report_note;
use design_modes::replay_design;
use design_reading::{Unread, read_design};
use port_io::Sink;
use program_output::{Status, tell};
use replay_run::Replayed;
use run_status::end_status;
use std::alloc::Global;
use step_data::Options;
use step_schedule::Step;
use text_designs::texts_give_designs;
use trace_sink::TraceFault;

/// Writes the note of a replay's report, where its trace is written, and answers the status.
fn tell_report<E: Sink>(
    alloc: Global,
    replayed: Result<Replayed, TraceFault>,
    notes: &mut E,
) -> Status
    ensures { TellsReplay replayed result (port (E.held notes.old) (E.held notes.new) (E.faults notes.old) (E.faults notes.new)) }
{
    match replayed {
        Ok(told) => match report_note(alloc, &told.report) {
            Ok(note) => tell(notes, &note, end_status(told.end)),
            Err(_) => Status::Memory,
        },
        Err(TraceFault::WriteFault) => Status::WriteFault,
        Err(TraceFault::Memory) => Status::Memory,
    }
}

/// Writes the note of a text that is refused.
fn refuse<E: Sink>(unread: Unread, notes: &mut E) -> Status
    ensures { TellsUnread unread result (port (E.held notes.old) (E.held notes.new) (E.faults notes.old) (E.faults notes.new)) }
{
    match unread {
        Unread::Refused(note) => tell(notes, &note, Status::DesignRefused),
        Unread::Memory => Status::Memory,
    }
}

/// Reads a text of at most 1,048,576 bytes and replays the flat design of its top by a schedule of steps, or writes the note of
/// the refusal that comes first.
pub fn replay_text<K: Sink, E: Sink>(
    alloc: Global,
    text: &[u8],
    top: &String,
    options: &Options,
    schedule: &[Step],
    trace: &mut K,
    notes: &mut E,
) -> Status
    requires short { length text.now ≤ most_bytes }
    requires allowed { IsAllowed options.now }
    ensures { ReplaysText result text.now (string_bytes top.now) options.now schedule.now
        (port (K.held trace.old) (K.held trace.new) (K.faults trace.old) (K.faults trace.new))
        (port (E.held notes.old) (E.held notes.new) (E.faults notes.old) (E.faults notes.new)) }
{
    texts_give_designs();
    match read_design(alloc, text, top.as_str()) {
        Ok(flat) => {
            let replayed = replay_design(alloc, &flat, top, options, schedule, trace);
            tell_report(alloc, replayed, notes)
        }
        Err(unread) => refuse(unread, notes),
    }
}
