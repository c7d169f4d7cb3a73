//! Mode run.
ghost use Rattle.std.specs.Prelude.{◌≡◌, true};
ghost use Rattle.step_data.specs.Options.{IsAllowed};
ghost use Rattle.word_rules.specs.Words.{texts, wants_threads};
ghost use Rattle.program_words.specs.Asked.{asked};
ghost use Rattle.program_output.specs.Port.{port};
ghost use Rattle.sim_top.specs.Outcome.{RunsAhead, Ends};

use crate::refusals::{MOST_BYTES, refuse_length};
use port_io::{ReadAll, Sink, Source, read_all};
use program_output::Status;
use program_words::{Settings, read_settings};
use runahead_worker::Gate;
use std::alloc::Global;
use std::sync::Wait;
use std::thread::Threads;
use text_threads::simulate_on_threads;

/// A text is read from the source, and its top is run, the analogue kernel ahead of the digital one on a thread of its own.
fn run_ahead<S: Source, K: Sink, E: Sink, G: Gate, R: Threads + Wait + Sync>(
    rt: &R,
    alloc: Global,
    settings: &Settings,
    source: &mut S,
    trace: &mut K,
    notes: &mut E,
    gate: &G,
) -> Status
    requires { IsAllowed settings.now.options }
    ensures { RunsAhead result (asked settings.now)
        (port (S.left source.old) (S.left source.new) (S.faults source.old) (S.faults source.new))
        (port (K.held trace.old) (K.held trace.new) (K.faults trace.old) (K.faults trace.new))
        (port (E.held notes.old) (E.held notes.new) (E.faults notes.old) (E.faults notes.new)) }
{
    match read_all(alloc, source, MOST_BYTES) {
        Ok(text) => simulate_on_threads(
            rt,
            alloc,
            &text,
            &settings.top,
            &settings.options,
            trace,
            notes,
            gate,
        ),
        Err(ReadAll::ReadFault) => Status::ReadFault,
        Err(ReadAll::TooLong) => refuse_length(notes),
        Err(ReadAll::Memory) => Status::Memory,
    }
}

/// Does what accepted words ask for that want threads.
pub fn perform_ahead<S: Source, K: Sink, E: Sink, G: Gate, R: Threads + Wait + Sync>(
    rt: &R,
    alloc: Global,
    words: &[String],
    source: &mut S,
    trace: &mut K,
    notes: &mut E,
    gate: &G,
) -> Status
    requires { wants_threads (texts words.now) ≡ true }
    ensures { Ends result (texts words.now)
        (port (S.left source.old) (S.left source.new) (S.faults source.old) (S.faults source.new))
        (port (K.held trace.old) (K.held trace.new) (K.faults trace.old) (K.faults trace.new))
        (port (E.held notes.old) (E.held notes.new) (E.faults notes.old) (E.faults notes.new)) }
{
    match read_settings(alloc, words) {
        Ok(settings) => run_ahead(rt, alloc, &settings, source, trace, notes, gate),
        Err(_) => Status::Memory,
    }
}
