//! A run on threads over a design that is listed.

ghost use Rattle.std.specs.Prelude.{◌≡◌, ◌≤◌, ◌<◌, ◌^◌, [], length, IfOk, IfSome, OnOk, Some};
ghost use Rattle.step_data.specs.Options.{IsAllowed};
ghost use Rattle.lockstep_model.specs.Lockstep.{lockstep};
ghost use Rattle.lockstep_model.specs.Walk.{first_walk};
ghost use Rattle.lockstep_model.specs.Works.{events_of};
ghost use Rattle.run_place.specs.Budgets.{delta_budget, run_budget};
ghost use Rattle.listed_models.specs.Listing.{SolvesAs, RunsAs, system_of};
ghost use Rattle.timeline.specs.Notes.{no_counts};
ghost use Rattle.trace_sink.specs.Puts.{Puts};
ghost use Rattle.trace_lines.specs.Lines.{event_lines};
ghost use Rattle.threaded_run.specs.Telling.{Reported, IsEachPublished, RunnerFits};

use listed_models::{CycleRow, Listed, Script, SolutionRow, StepRow};
use port_io::MemSink;
use runahead_worker::Gate;
use std::alloc::{AllocError, Global};
use std::marker::Brand;
use std::sync::Wait;
use std::thread::Threads;
use step_data::{End, Options};
use step_model::Design;
use threaded_lines::{Lined, Prepared, prepare, run_lines};
use timeline::{Counts, Note, Timeline};
use trace_sink::TraceFault;

/// What is listed of a design, with its options.
#[derive(Drop)]
pub struct Listing {
    pub steps: Vec<StepRow>,
    pub solutions: Vec<SolutionRow>,
    pub cycles: Vec<CycleRow>,
    pub reads: bool,
    pub options: Options,
}

/// What a run gave: how it ended, how many attempts the engine made itself, how often the timeline gave each reply, its notes,
/// and the lines of the events.
#[derive(Drop)]
pub struct Told {
    pub ended: Result<End, TraceFault>,
    pub own: u64,
    pub counts: Counts,
    pub notes: Vec<Note>,
    pub trace: MemSink,
}

/// The places for notes.
const NOTES: u32 = 10_000;

/// All notes of a timeline.
fn notes_of<D: Design>(alloc: Global, line: &Timeline<D>) -> Result<Vec<Note>, AllocError> {
    line.journal().entries().to_vec(alloc)
}

/// A timeline with places for notes.
fn with_places<D: Design>(line: Timeline<D>) -> Result<Timeline<D>, AllocError>
    requires { line.line.journal.reserved ≡ 0 }
    ensures part { IfOk result (λ now. now.part ≡ line.part) }
    ensures counts { IfOk result (λ now. now.line.journal.counts ≡ line.line.journal.counts) }
    ensures entries { IfOk result (λ now. now.line.journal.entries ≡ line.line.journal.entries) }
{
    let mut line = line;
    line.reserve_journal(NOTES)?;
    Ok(line)
}

/// A solver that runs ahead, where there is to be one.
fn ahead_of<D: Design>(
    alloc: Global,
    listing: &Listing,
    ahead: bool,
) -> Result<Option<Listed<D>>, AllocError>
    requires { SolvesAs (D.system 0) listing.now.steps.items listing.now.solutions.items listing.now.reads listing.now.options }
{
    if !ahead {
        return Ok(None);
    }
    let stepper: Listed<D> = Listed::new(
        alloc,
        listing.steps.as_slice(),
        listing.solutions.as_slice(),
        listing.reads,
        &listing.options,
    )?;
    Ok(Some(stepper))
}

/// A solver, the kernel, and all else that a run takes.
fn prepared_of<D: Design>(
    alloc: Global,
    listing: Listing,
    ahead: bool,
) -> Result<Prepared<D, Listed<D>, Script<D>>, AllocError>
    requires solves { SolvesAs (D.system 0) listing.steps.items listing.solutions.items listing.reads listing.options }
    requires runs { RunsAs (D.system 0) listing.cycles.items listing.reads }
    requires some { 1 ≤ length listing.cycles.items }
    requires allowed { IsAllowed listing.options }
    requires deltas { (D.system 0).deltas ≡ delta_budget }
    requires choices { (D.system 0).choices < 2 ^ 32 }
    requires cycles { (D.system 0).cycles ≡ run_budget }
    requires tries { (D.system 0).tries ≡ run_budget }
    ensures part { IfOk result (λ made. made.timeline.part ≡ 0) }
    ensures counts { IfOk result (λ made. made.timeline.line.journal.counts ≡ no_counts) }
    ensures entries { IfOk result (λ made. made.timeline.line.journal.entries ≡ []) }
    ensures reserved { IfOk result (λ made. made.timeline.line.journal.reserved ≡ 0) }
    ensures worker { IfOk result (λ made. IfSome made.runner (λ runner. RunnerFits (D.system 0) 0 0 runner.ahead)) }
    ensures fresh { IfOk result (λ made. made.engine.walk ≡ first_walk (D.system 0)) }
    ensures room { IfOk result (λ made. length made.scratch.found.x ≡ (D.system 0).unknowns) }
    ensures empty { IfOk result (λ made. made.scratch.events ≡ []) }
{
    let worker: Option<Listed<D>> = ahead_of(alloc, &listing, ahead)?;
    let stepper: Listed<D> = Listed::new(
        alloc,
        listing.steps.as_slice(),
        listing.solutions.as_slice(),
        listing.reads,
        &listing.options,
    )?;
    let kernel: Script<D> = Script::new(alloc, listing.cycles, listing.reads);
    prepare(alloc, &listing.options, stepper, worker, kernel)
}

/// What a run gave, with its notes.
fn told_of<D: Design>(alloc: Global, lined: Lined<D, MemSink>) -> Result<Told, AllocError>
    ensures ended { IfOk result (λ told. told.ended ≡ lined.ended) }
    ensures own { IfOk result (λ told. told.own ≡ lined.own) }
    ensures counts { IfOk result (λ told. told.counts ≡ lined.counts) }
    ensures trace { IfOk result (λ told. told.trace ≡ lined.trace) }
{
    let notes = notes_of(alloc, &lined.timeline)?;
    Ok(Told {
        ended: lined.ended,
        own: lined.own,
        counts: lined.counts,
        notes,
        trace: lined.trace,
    })
}

fn run_design<D: Design + Send + Sync, G: Gate, R: Threads + Wait + Sync>(
    rt: &R,
    alloc: Global,
    listing: Listing,
    ahead: bool,
    trace: MemSink,
    gate: &G,
) -> Result<Told, AllocError>
    requires solves { SolvesAs (D.system 0) listing.steps.items listing.solutions.items listing.reads listing.options }
    requires runs { RunsAs (D.system 0) listing.cycles.items listing.reads }
    requires some { 1 ≤ length listing.cycles.items }
    requires allowed { IsAllowed listing.options }
    requires deltas { (D.system 0).deltas ≡ delta_budget }
    requires choices { (D.system 0).choices < 2 ^ 32 }
    requires cycles { (D.system 0).cycles ≡ run_budget }
    requires tries { (D.system 0).tries ≡ run_budget }
    ensures puts { IfOk result (λ told. Puts told.ended (event_lines [] (events_of (lockstep (D.system 0)).works)) (Some trace.held) (Some told.trace.held) trace.faults told.trace.faults) }
    ensures end { IfOk result (λ told. IfOk told.ended (λ end. end ≡ (lockstep (D.system 0)).end)) }
    ensures report { IfOk result (λ told. OnOk told.ended (Reported (lockstep (D.system 0)).works told.own told.counts)) }
    ensures published { IfOk result (λ told. IsEachPublished told.counts) }
{
    let Prepared {
        timeline,
        runner,
        engine,
        scratch,
    } = prepared_of::<D>(alloc, listing, ahead)?;
    let timeline = with_places(timeline)?;
    let prepared = Prepared {
        timeline,
        runner,
        engine,
        scratch,
    };
    let lined = run_lines(rt, prepared, &[], Vec::new(alloc), trace, gate);
    told_of(alloc, lined)
}

/// The run on threads of a design that is listed, with a solver that runs ahead or without. Whatever the order of both
/// kernels, the lines of the events and the end are those of lockstep, and each attempt was found or was an own one.
pub fn run_listed<G: Gate, R: Threads + Wait + Sync>(
    rt: &R,
    alloc: Global,
    listing: Listing,
    ahead: bool,
    trace: MemSink,
    gate: &G,
) -> Result<Told, AllocError>
    requires some { 1 ≤ length listing.cycles.items }
    requires allowed { IsAllowed listing.options }
    ensures puts { IfOk result (λ told. Puts told.ended (event_lines [] (events_of (lockstep (system_of listing.steps.items listing.solutions.items listing.cycles.items listing.reads listing.options)).works))
        (Some trace.held) (Some told.trace.held) trace.faults told.trace.faults) }
    ensures end { IfOk result (λ told. IfOk told.ended (λ end. end ≡ (lockstep (system_of listing.steps.items listing.solutions.items listing.cycles.items listing.reads listing.options)).end)) }
    ensures report { IfOk result (λ told. OnOk told.ended (Reported (lockstep (system_of listing.steps.items listing.solutions.items listing.cycles.items listing.reads listing.options)).works told.own told.counts)) }
    ensures published { IfOk result (λ told. IsEachPublished told.counts) }
{
    run_design::<Brand, G, R>(rt, alloc, listing, ahead, trace, gate)
}
