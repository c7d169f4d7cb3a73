//! The lines of the works of a run.
ghost use Rattle.std.specs.Prelude.{◌≡◌, [], length, OnOk, IfOk, IfSome};
ghost use Rattle.lockstep_model.specs.Lockstep.{lockstep};
ghost use Rattle.lockstep_model.specs.Walk.{first_walk};
ghost use Rattle.lockstep_model.specs.Works.{events_of};
ghost use Rattle.run_place.specs.Budgets.{run_budget};
ghost use Rattle.timeline.specs.Kept.{Holds};
ghost use Rattle.timeline.specs.Notes.{no_counts};
ghost use Rattle.trace_sink.specs.Puts.{Puts};
ghost use Rattle.trace_lines.specs.Lines.{event_lines};
ghost use Rattle.threaded_run.specs.Telling.{Reported, IsEachPublished, RunnerFits};
ghost use Rattle.threaded_lines.specs.Ends.{ended_as};

use crate::start::Prepared;
use event_sink::SinkFault;
use flat_design::Enumeration;
use line_sink::LineSink;
use port_io::Sink;
use runahead_worker::Gate;
use std::sync::Wait;
use std::thread::Threads;
use step_data::End;
use step_model::{Design, Kernel, Stepper};
use threaded_run::run;
use timeline::{Counts, Timeline};
use trace_sink::TraceFault;

/// What a run gave whose lines were written: how it ended, how many attempts the engine made itself, how often the timeline
/// gave each reply, the trace with the room of a line, and the timeline.
#[derive(Drop)]
pub struct Lined<D: Design, W: Drop> {
    pub ended: Result<End, TraceFault>,
    pub own: u64,
    pub counts: Counts,
    pub room: Vec<u8>,
    pub trace: W,
    pub timeline: Timeline<D>,
}

/// The end as whoever reads the trace sees it.
fn ended_as(ended: Result<End, SinkFault>) -> Result<End, TraceFault>
    ensures { result ≡ ended_as ended }
{
    match ended {
        Ok(end) => Ok(end),
        Err(SinkFault::Failed) => Err(TraceFault::WriteFault),
        Err(SinkFault::Memory) => Err(TraceFault::Memory),
    }
}

/// How often a timeline gave each reply.
fn counts_of<D: Design>(timeline: &Timeline<D>) -> Counts
    ensures { result ≡ timeline.now.line.journal.counts }
{
    timeline.journal().counts()
}

/// Runs what is prepared, and writes the line of each event. Whatever the worker does, or where there is none, the lines are
/// those of lockstep.
pub fn run_lines<
    D: Design + Send + Sync,
    S: Stepper<D> + Drop + Send,
    K: Kernel<D> + Drop,
    W: Sink + Drop,
    G: Gate,
    R: Threads + Wait + Sync,
>(
    rt: &R,
    prepared: Prepared<D, S, K>,
    enums: &[Enumeration],
    room: Vec<u8>,
    trace: W,
    gate: &G,
) -> Lined<D, W>
    requires part { prepared.timeline.part ≡ 0 }
    requires counts { prepared.timeline.line.journal.counts ≡ no_counts }
    requires entries { prepared.timeline.line.journal.entries ≡ [] }
    requires worker { IfSome prepared.runner (λ runner. RunnerFits (D.system 0) 0 (S.part runner.stepper) runner.ahead) }
    requires fresh { prepared.engine.walk ≡ first_walk (D.system 0) }
    requires tries { (D.system 0).tries ≡ run_budget }
    requires room { length prepared.scratch.found.x ≡ (D.system 0).unknowns }
    requires empty { prepared.scratch.events ≡ [] }
    ensures puts { Puts result.ended (event_lines enums.now (events_of (lockstep (D.system 0)).works)) (W.held trace) (W.held result.trace) (W.faults trace) (W.faults result.trace) }
    ensures end { IfOk result.ended (λ end. end ≡ (lockstep (D.system 0)).end) }
    ensures report { OnOk result.ended (Reported (lockstep (D.system 0)).works result.own result.counts) }
    ensures published { IsEachPublished result.counts }
    ensures counts { result.counts ≡ result.timeline.line.journal.counts }
    ensures holds { Holds (D.system 0) result.timeline.line }
{
    let sink = LineSink { enums, room, trace };
    let ran = run(
        rt,
        prepared.timeline,
        prepared.runner,
        prepared.engine,
        prepared.scratch,
        sink,
        gate,
    );
    let ended = ended_as(ran.ended);
    let counts = counts_of(&ran.timeline);
    Lined {
        ended,
        own: ran.own,
        counts,
        room: ran.sink.room,
        trace: ran.sink.trace,
        timeline: ran.timeline,
    }
}
