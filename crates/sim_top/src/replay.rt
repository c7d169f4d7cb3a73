//! Mode replay.
ghost use Rattle.step_data.specs.Options.{IsAllowed};
ghost use Rattle.program_words.specs.Asked.{asked};
ghost use Rattle.program_output.specs.Port.{port};
ghost use Rattle.sim_top.specs.Outcome.{Replays};

use crate::refusals::{MOST_BYTES, refuse_length};
use port_io::{ReadAll, Sink, Source, read_all};
use program_output::Status;
use program_words::Settings;
use std::alloc::Global;
use text_modes::replay_text;

/// A text is read from the source, and its top is run, with attempts saved ahead in the order of the schedule.
pub fn run_by_schedule<S: Source, K: Sink, E: Sink>(
    alloc: Global,
    settings: &Settings,
    source: &mut S,
    trace: &mut K,
    notes: &mut E,
) -> Status
    requires { IsAllowed settings.now.options }
    ensures { Replays result (asked settings.now)
        (port (S.left source.old) (S.left source.new) (S.faults source.old) (S.faults source.new))
        (port (K.held trace.old) (K.held trace.new) (K.faults trace.old) (K.faults trace.new))
        (port (E.held notes.old) (E.held notes.new) (E.faults notes.old) (E.faults notes.new)) }
{
    let schedule = settings.schedule.as_slice();
    match read_all(alloc, source, MOST_BYTES) {
        Ok(text) => replay_text(
            alloc,
            &text,
            &settings.top,
            &settings.options,
            schedule,
            trace,
            notes,
        ),
        Err(ReadAll::ReadFault) => Status::ReadFault,
        Err(ReadAll::TooLong) => refuse_length(notes),
        Err(ReadAll::Memory) => Status::Memory,
    }
}
