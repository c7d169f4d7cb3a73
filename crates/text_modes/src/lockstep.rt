//! From a text to its trace.
ghost use Rattle.std.specs.Prelude.{◌≤◌, length, string_bytes};
ghost use Rattle.step_data.specs.Options.{IsAllowed};
ghost use Rattle.program_output.specs.Port.{port};
ghost use Rattle.text_modes.specs.Start.{most_bytes};
ghost use Rattle.text_modes.specs.TextRun.{RunsText};

use crate::start::read_or_refuse;
use design_modes::run_design;
use port_io::Sink;
use program_output::Status;
use run_status::{run_status, runs_hand_on};
use std::alloc::Global;
use step_data::Options;

/// Reads a text, and runs the flat design of its top in lockstep, or writes the note of the refusal that comes first.
pub fn simulate_text<K: Sink, E: Sink>(
    alloc: Global,
    text: &[u8],
    top: &String,
    options: &Options,
    trace: &mut K,
    notes: &mut E,
) -> Status
    requires short { length text.now ≤ most_bytes }
    requires allowed { IsAllowed options.now }
    ensures { RunsText result text.now (string_bytes top.now) options.now
        (port (K.held trace.old) (K.held trace.new) (K.faults trace.old) (K.faults trace.new))
        (port (E.held notes.old) (E.held notes.new) (E.faults notes.old) (E.faults notes.new)) }
{
    runs_hand_on();
    match read_or_refuse(alloc, text, top.as_str(), notes) {
        Ok(flat) => run_status(run_design(alloc, &flat, top, options, trace)),
        Err(status) => status,
    }
}
