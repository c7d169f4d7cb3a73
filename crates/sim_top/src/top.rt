//! The top call.
ghost use Rattle.std.specs.Prelude.{◌≡◌, ◌≤◌, false};
ghost use Rattle.step_data.specs.Options.{IsAllowed};
ghost use Rattle.word_rules.specs.Words.{texts, is_run, wants_threads};
ghost use Rattle.program_words.specs.Asked.{asked};
ghost use Rattle.program_output.specs.Port.{port};
ghost use Rattle.sim_top.specs.Outcome.{Simulates, Performs, Ends};
ghost use Rattle.sim_top.specs.Points.{PointsAreMet};

use crate::ahead::perform_ahead;
use crate::refusals::{MOST_BYTES, refuse_length, refuse_words};
use crate::replay::run_by_schedule;
use design_run::lines_of_run;
use point_laws::points_meet_their_equations;
use port_io::{ReadAll, Sink, Source, read_all};
use program_output::Status;
use program_words::{Settings, read_settings};
use runahead_worker::Gate;
use std::alloc::Global;
use std::sync::Wait;
use std::thread::Threads;
use text_modes::{make_ladder, simulate_text};
use word_rules::{Mode, check_words, wants_threads};

/// Mode lockstep: a text is read from the source, and its top is run, the analogue kernel in step with the digital one.
fn run_in_lockstep<S: Source, K: Sink, E: Sink>(
    alloc: Global,
    settings: &Settings,
    source: &mut S,
    trace: &mut K,
    notes: &mut E,
) -> Status
    requires { IsAllowed settings.now.options }
    ensures { Simulates result (asked settings.now)
        (port (S.left source.old) (S.left source.new) (S.faults source.old) (S.faults source.new))
        (port (K.held trace.old) (K.held trace.new) (K.faults trace.old) (K.faults trace.new))
        (port (E.held notes.old) (E.held notes.new) (E.faults notes.old) (E.faults notes.new)) }
{
    match read_all(alloc, source, MOST_BYTES) {
        Ok(text) => simulate_text(alloc, &text, &settings.top, &settings.options, trace, notes),
        Err(ReadAll::ReadFault) => Status::ReadFault,
        Err(ReadAll::TooLong) => refuse_length(notes),
        Err(ReadAll::Memory) => Status::Memory,
    }
}

/// Does what accepted words ask for that don't want threads.
fn perform<S: Source, K: Sink, E: Sink>(
    alloc: Global,
    settings: &Settings,
    source: &mut S,
    trace: &mut K,
    notes: &mut E,
) -> Status
    requires plain { is_run settings.now.mode ≡ false }
    requires size { settings.now.size ≤ 15 }
    requires allowed { IsAllowed settings.now.options }
    ensures { Performs settings.now.mode result (asked settings.now)
        (port (S.left source.old) (S.left source.new) (S.faults source.old) (S.faults source.new))
        (port (K.held trace.old) (K.held trace.new) (K.faults trace.old) (K.faults trace.new))
        (port (E.held notes.old) (E.held notes.new) (E.faults notes.old) (E.faults notes.new)) }
{
    match settings.mode {
        Mode::Run => unreachable!(),
        Mode::Lockstep => run_in_lockstep(alloc, settings, source, trace, notes),
        Mode::Replay => run_by_schedule(alloc, settings, source, trace, notes),
        Mode::Make => make_ladder(alloc, settings.size, &settings.options, trace, notes),
    }
}

/// Judges the words, and does what accepted ones ask for that don't want threads.
fn judge_and_perform<S: Source, K: Sink, E: Sink>(
    alloc: Global,
    words: &[String],
    source: &mut S,
    trace: &mut K,
    notes: &mut E,
) -> Status
    requires { wants_threads (texts words.now) ≡ false }
    ensures { Ends result (texts words.now)
        (port (S.left source.old) (S.left source.new) (S.faults source.old) (S.faults source.new))
        (port (K.held trace.old) (K.held trace.new) (K.faults trace.old) (K.faults trace.new))
        (port (E.held notes.old) (E.held notes.new) (E.faults notes.old) (E.faults notes.new)) }
{
    match check_words(words) {
        Ok(()) => match read_settings(alloc, words) {
            Ok(settings) => perform(alloc, &settings, source, trace, notes),
            Err(_) => Status::Memory,
        },
        Err(number) => refuse_words(alloc, number, notes),
    }
}

/// Runs the program where the words don't want threads: judges them, reads a design from the source, simulates it, and writes its
/// trace and its notes.
pub fn simulate_plain<S: Source, K: Sink, E: Sink>(
    alloc: Global,
    words: &[String],
    source: &mut S,
    trace: &mut K,
    notes: &mut E,
) -> Status
    requires { wants_threads (texts words.now) ≡ false }
    ensures ends { Ends result (texts words.now)
        (port (S.left source.old) (S.left source.new) (S.faults source.old) (S.faults source.new))
        (port (K.held trace.old) (K.held trace.new) (K.faults trace.old) (K.faults trace.new))
        (port (E.held notes.old) (E.held notes.new) (E.faults notes.old) (E.faults notes.new)) }
    ensures points { PointsAreMet (texts words.now)
        (port (S.left source.old) (S.left source.new) (S.faults source.old) (S.faults source.new))
        (port (K.held trace.old) (K.held trace.new) (K.faults trace.old) (K.faults trace.new)) }
{
    points_meet_their_equations();
    lines_of_run();
    judge_and_perform(alloc, words, source, trace, notes)
}

/// Judges the words, and does what accepted ones ask for, on threads where they want them.
fn judge_and_perform_any<S: Source, K: Sink, E: Sink, G: Gate, R: Threads + Wait + Sync>(
    rt: &R,
    alloc: Global,
    words: &[String],
    source: &mut S,
    trace: &mut K,
    notes: &mut E,
    gate: &G,
) -> Status
    ensures { Ends result (texts words.now)
        (port (S.left source.old) (S.left source.new) (S.faults source.old) (S.faults source.new))
        (port (K.held trace.old) (K.held trace.new) (K.faults trace.old) (K.faults trace.new))
        (port (E.held notes.old) (E.held notes.new) (E.faults notes.old) (E.faults notes.new)) }
{
    if wants_threads(words) {
        perform_ahead(rt, alloc, words, source, trace, notes, gate)
    } else {
        judge_and_perform(alloc, words, source, trace, notes)
    }
}

/// Runs the program: judges the words, reads a design from the source, simulates it, and writes its trace and its notes. In mode run
/// the kernels run on two threads, each held by the gate where it passes.
pub fn simulate<S: Source, K: Sink, E: Sink, G: Gate, R: Threads + Wait + Sync>(
    rt: &R,
    alloc: Global,
    words: &[String],
    source: &mut S,
    trace: &mut K,
    notes: &mut E,
    gate: &G,
) -> Status
    ensures ends { Ends result (texts words.now)
        (port (S.left source.old) (S.left source.new) (S.faults source.old) (S.faults source.new))
        (port (K.held trace.old) (K.held trace.new) (K.faults trace.old) (K.faults trace.new))
        (port (E.held notes.old) (E.held notes.new) (E.faults notes.old) (E.faults notes.new)) }
    ensures points { PointsAreMet (texts words.now)
        (port (S.left source.old) (S.left source.new) (S.faults source.old) (S.faults source.new))
        (port (K.held trace.old) (K.held trace.new) (K.faults trace.old) (K.faults trace.new)) }
{
    points_meet_their_equations();
    lines_of_run();
    judge_and_perform_any(rt, alloc, words, source, trace, notes, gate)
}
