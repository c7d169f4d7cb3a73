//! A run of the core over a design that is listed.

ghost use Rattle.std.specs.Prelude.{◌≡◌, ◌≤◌, ◌+◌, ◌++◌, length, OnOk, IfOk};
ghost use Rattle.step_data.specs.Options.{IsAllowed};
ghost use Rattle.lockstep_model.specs.Lockstep.{lockstep};
ghost use Rattle.lockstep_model.specs.Walk.{first_walk};
ghost use Rattle.lockstep_model.specs.Works.{events_of, attempts_in};
ghost use Rattle.listed_models.specs.Listing.{SolvesAs, RunsAs, system_of};
ghost use Rattle.core_steps.specs.States.{first_state, first_line};
ghost use Rattle.engine_rows.specs.Budgets.{HasBudgets};

use core_steps::CoreOfTwo;
use listed_models::{CycleRow, Listed, Script, SolutionRow, StepRow};
use mixed_cycle::engine::Engine;
use std::alloc::{AllocError, Global};
use std::marker::Brand;
use step_data::{End, EventList, Options};
use step_model::{Design, Stepper};
use step_schedule::Step;
use timeline::{Counts, Timeline};

/// How a run of the core ended, how many attempts the engine made itself, and how often the timeline gave each reply.
#[derive(Clone, Copy, Debug, PartialEq, Eq)]
pub struct Replayed {
    pub end: End,
    pub own: u64,
    pub counts: Counts,
}

/// The engine of a design that is listed, before its run.
fn engine_of<D: Design>(
    alloc: Global,
    steps: &[StepRow],
    solutions: &[SolutionRow],
    cycles: Vec<CycleRow>,
    reads: bool,
    options: Options,
) -> Result<Engine<D, Listed<D>, Script<D>>, AllocError>
    requires solves { SolvesAs (D.system 0) steps.now solutions.now reads options }
    requires runs { RunsAs (D.system 0) cycles.items reads }
    requires some { 1 ≤ length cycles.items }
    requires allowed { IsAllowed options }
    requires budgets { HasBudgets (D.system 0) }
    ensures { IfOk result (λ engine. engine.walk ≡ first_walk (D.system 0)) }
{
    let stepper: Listed<D> = Listed::new(alloc, steps, solutions, reads, &options)?;
    let kernel: Script<D> = Script::new(alloc, cycles, reads);
    Engine::new(stepper, kernel, options, alloc)
}

/// A timeline on which nothing was begun.
fn timeline_of<D: Design>(
    alloc: Global,
    worker: &Listed<D>,
    options: &Options,
) -> Result<Timeline<D>, AllocError>
    requires options { options.now ≡ (D.system 0).options }
    requires allowed { IsAllowed options.now }
    ensures { IfOk result (λ timeline. timeline ≡ record { part = 0; line = first_line (D.system 0) }) }
{
    Timeline::new(
        alloc,
        0,
        options.ahead,
        options.stop,
        worker.unknowns(),
        worker.frame_len(),
    )
}

/// The core of a design that is listed, before its run.
fn core_of<D: Design>(
    alloc: Global,
    steps: &[StepRow],
    solutions: &[SolutionRow],
    cycles: Vec<CycleRow>,
    reads: bool,
    options: Options,
) -> Result<CoreOfTwo<D, Listed<D>, Script<D>>, AllocError>
    requires solves { SolvesAs (D.system 0) steps.now solutions.now reads options }
    requires runs { RunsAs (D.system 0) cycles.items reads }
    requires some { 1 ≤ length cycles.items }
    requires allowed { IsAllowed options }
    requires budgets { HasBudgets (D.system 0) }
    ensures { IfOk result (λ core. core ≡ first_state (D.system 0)) }
{
    let worker: Listed<D> = Listed::new(alloc, steps, solutions, reads, &options)?;
    let line = timeline_of(alloc, &worker, &options)?;
    let engine = engine_of(alloc, steps, solutions, cycles, reads, options)?;
    CoreOfTwo::new(engine, worker, line, alloc)
}

/// The whole run of a core, with the steps of a schedule first.
fn replay_core<D: Design>(
    core: &mut CoreOfTwo<D, Listed<D>, Script<D>>,
    schedule: &[Step],
    out: &mut EventList,
) -> Result<Replayed, AllocError>
    requires fresh { core.old ≡ first_state (D.system 0) }
    requires budgets { HasBudgets (D.system 0) }
    ensures events { OnOk result (out.new ≡ out.old ++ events_of (lockstep (D.system 0)).works) }
    ensures end { IfOk result (λ replayed. replayed.end ≡ (lockstep (D.system 0)).end) }
    ensures attempts { IfOk result (λ replayed. replayed.own + replayed.counts.reused ≡ attempts_in (lockstep (D.system 0)).works) }
{
    let end = core.replay(schedule, out)?;
    Ok(Replayed {
        end,
        own: core.own(),
        counts: core.counts(),
    })
}

fn replay_design<D: Design>(
    alloc: Global,
    steps: &[StepRow],
    solutions: &[SolutionRow],
    cycles: Vec<CycleRow>,
    reads: bool,
    options: Options,
    schedule: &[Step],
    out: &mut EventList,
) -> Result<Replayed, AllocError>
    requires solves { SolvesAs (D.system 0) steps.now solutions.now reads options }
    requires runs { RunsAs (D.system 0) cycles.items reads }
    requires some { 1 ≤ length cycles.items }
    requires allowed { IsAllowed options }
    requires budgets { HasBudgets (D.system 0) }
    ensures events { OnOk result (out.new ≡ out.old ++ events_of (lockstep (D.system 0)).works) }
    ensures end { IfOk result (λ replayed. replayed.end ≡ (lockstep (D.system 0)).end) }
    ensures attempts { IfOk result (λ replayed. replayed.own + replayed.counts.reused ≡ attempts_in (lockstep (D.system 0)).works) }
{
    let mut core: CoreOfTwo<D, Listed<D>, Script<D>> = core_of(
        alloc, steps, solutions, cycles, reads, options,
    )?;
    replay_core(&mut core, schedule, out)
}

/// The whole run of a design that is listed, with the steps of a schedule first. Whatever the schedule is, the events and the
/// end are those of lockstep, and each attempt was found or was an own one.
pub fn replay(
    alloc: Global,
    steps: &[StepRow],
    solutions: &[SolutionRow],
    cycles: Vec<CycleRow>,
    reads: bool,
    options: Options,
    schedule: &[Step],
    out: &mut EventList,
) -> Result<Replayed, AllocError>
    requires some { 1 ≤ length cycles.items }
    requires allowed { IsAllowed options }
    ensures events { OnOk result (out.new ≡ out.old ++ events_of (lockstep (system_of steps.now solutions.now cycles.items reads options)).works) }
    ensures end { IfOk result (λ replayed. replayed.end ≡ (lockstep (system_of steps.now solutions.now cycles.items reads options)).end) }
    ensures attempts { IfOk result (λ replayed. replayed.own + replayed.counts.reused ≡ attempts_in (lockstep (system_of steps.now solutions.now cycles.items reads options)).works) }
{
    replay_design::<Brand>(
        alloc, steps, solutions, cycles, reads, options, schedule, out,
    )
}
