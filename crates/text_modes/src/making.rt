//! From the size of a ladder to the numbers of its run.
ghost use Rattle.std.specs.Prelude.{◌≤◌, length};
ghost use Rattle.step_data.specs.Options.{IsAllowed};
ghost use Rattle.ladder.specs.Ladder.{ladder_text as ladder_spelling};
ghost use Rattle.program_output.specs.Port.{port};
ghost use Rattle.text_modes.specs.Start.{most_bytes};
ghost use Rattle.text_modes.specs.Making.{MakesText};

use crate::start::read_or_refuse;
use design_modes::make_design;
use ladder::ladder_text;
use port_io::Sink;
use program_output::Status;
use run_status::run_status;
use std::alloc::Global;
use step_data::Options;

/// Reads a text, and runs the flat design of its `ladder`, or writes the note of the refusal that comes first.
fn make_text<K: Sink, E: Sink>(
    alloc: Global,
    text: &[u8],
    size: u32,
    options: &Options,
    trace: &mut K,
    notes: &mut E,
) -> Status
    requires short { length text.now ≤ most_bytes }
    requires allowed { IsAllowed options.now }
    ensures { MakesText result text.now size options.now
        (port (K.held trace.old) (K.held trace.new) (K.faults trace.old) (K.faults trace.new))
        (port (E.held notes.old) (E.held notes.new) (E.faults notes.old) (E.faults notes.new)) }
{
    match read_or_refuse(alloc, text, "ladder", notes) {
        Ok(flat) => run_status(make_design(alloc, &flat, size, options, trace)),
        Err(status) => status,
    }
}

/// Generates the ladder of so many sections, runs it in lockstep, and writes the numbers of its run and its end. A ladder that
/// were no design would be refused as any text is.
pub fn make_ladder<K: Sink, E: Sink>(
    alloc: Global,
    size: u32,
    options: &Options,
    trace: &mut K,
    notes: &mut E,
) -> Status
    requires size { size ≤ 15 }
    requires allowed { IsAllowed options.now }
    ensures { MakesText result (ladder_spelling size) size options.now
        (port (K.held trace.old) (K.held trace.new) (K.faults trace.old) (K.faults trace.new))
        (port (E.held notes.old) (E.held notes.new) (E.faults notes.old) (E.faults notes.new)) }
{
    match ladder_text(alloc, size) {
        Ok(text) => make_text(alloc, text.as_bytes(), size, options, trace, notes),
        Err(_) => Status::Memory,
    }
}
