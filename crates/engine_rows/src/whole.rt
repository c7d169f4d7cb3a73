//! A run of the engine over a design that is listed.

ghost use Rattle.std.specs.Prelude.{◌≡◌, ◌≤◌, ◌++◌, length, OnOk, IfOk};
ghost use Rattle.step_data.specs.Options.{IsAllowed};
ghost use Rattle.step_model.specs.System.{attempt as attempt_of};
ghost use Rattle.lockstep_model.specs.Lockstep.{lockstep};
ghost use Rattle.lockstep_model.specs.Walk.{Fits, NoReply, Looking, Awaits, EndsAll, Falls};
ghost use Rattle.lockstep_model.specs.Works.{events_of};
ghost use Rattle.mixed_cycle.specs.Moving.{FitsIn};
ghost use Rattle.listed_models.specs.Listing.{SolvesAs, RunsAs, system_of};
ghost use Rattle.engine_replies.specs.Replying.{reply_by};
ghost use Rattle.engine_rows.specs.Budgets.{HasBudgets};

use engine_replies::Reply;
use fix_core::Tick;
use listed_models::{CycleRow, Listed, Script, SolutionRow, StepRow};
use lockstep_model::{Ask, Moved};
use mixed_cycle::engine::Engine;
use std::alloc::{AllocError, Global};
use std::marker::Brand;
use step_data::{Attempt, End, EventList, Options};
use step_model::{Design, Stepper};

/// What each look finds.
#[derive(Clone, Copy, Debug, PartialEq, Eq)]
pub enum Looks {
    Nothing,
    /// The attempt, which another solver makes.
    Here,
}

/// What a move said, and what the engine shows behind it.
#[derive(Clone, Copy, Debug, PartialEq, Eq)]
pub struct Shown {
    pub said: Moved,
    /// How many events there are so far.
    pub events: usize,
    /// The time and the step of the tip that the ask names.
    pub t: Tick,
    pub h: u64,
    pub own: u64,
    pub cycles: u32,
}

/// Makes the attempt that is looked for.
fn find<D: Design>(
    engine: &Engine<D, Listed<D>, Script<D>>,
    finder: &mut Listed<D>,
    made: &mut Attempt,
)
    requires looking { engine.now.walk.awaited ≡ Looking }
    requires room { length made.old.x ≡ (D.system 0).unknowns }
    ensures value { made.new ≡ attempt_of (D.system 0) engine.now.walk.frame engine.now.walk.tip }
    ensures length { length made.new.x ≡ (D.system 0).unknowns }
{
    let frame = engine.frame();
    let tip = engine.tip();
    finder.attempt(frame, tip, made);
}

/// The reply to what a move says; where a look is to find the attempt, it is made.
fn reply_to<D: Design>(
    engine: &Engine<D, Listed<D>, Script<D>>,
    finder: &mut Listed<D>,
    looks: Looks,
    said: &Moved,
    made: &mut Attempt,
) -> Reply
    requires awaits { Awaits engine.now.walk said.now }
    requires room { length made.old.x ≡ (D.system 0).unknowns }
    ensures fits { Fits (attempt_of (D.system 0)) engine.now.walk engine.now.walk.awaited (reply_by result made.new) }
    ensures length { length made.new.x ≡ (D.system 0).unknowns }
{
    match said {
        Moved::Ended(_) | Moved::Ask(Ask::None | Ask::Begin) => Reply::None,
        Moved::Ask(Ask::Look { .. }) => match looks {
            Looks::Nothing => Reply::Nothing,
            Looks::Here => {
                find(engine, finder, made);
                Reply::Here
            }
        },
        Moved::Ask(Ask::Consume) => Reply::Consumed(true),
    }
}

fn show<D: Design>(engine: &Engine<D, Listed<D>, Script<D>>, said: &Moved, events: usize) -> Shown {
    let tip = engine.tip();
    Shown {
        said: *said,
        events,
        t: tip.t,
        h: tip.h,
        own: engine.own(),
        cycles: engine.cycles(),
    }
}

/// A move, which is shown.
fn turn<D: Design>(
    engine: &mut Engine<D, Listed<D>, Script<D>>,
    reply: Reply,
    made: &Attempt,
    out: &mut EventList,
    shown: &mut Vec<Shown>,
) -> Result<Moved, AllocError>
    requires fits { Fits (attempt_of (D.system 0)) engine.old.walk engine.old.walk.awaited (reply_by reply made.now) }
    requires room { length made.now.x ≡ (D.system 0).unknowns }
    ensures rest { OnOk result (out.new ++ events_of engine.new.walk.works ≡ out.old ++ events_of engine.old.walk.works) }
    ensures end { OnOk result (engine.new.walk.end ≡ engine.old.walk.end) }
    ensures ended { IfOk result (EndsAll engine.new.walk) }
    ensures awaits { IfOk result (Awaits engine.new.walk) }
    ensures falls { IfOk result (Falls engine.old.walk engine.new.walk) }
{
    let answer = reply.answer(made);
    let said = engine.move_once(&answer, out)?;
    shown.push(show(engine, &said, out.len()))?;
    Ok(said)
}

/// All moves of an engine. Each one is shown; the events and the end are those that are left.
fn drive<D: Design>(
    engine: &mut Engine<D, Listed<D>, Script<D>>,
    finder: &mut Listed<D>,
    looks: Looks,
    made: &mut Attempt,
    out: &mut EventList,
    shown: &mut Vec<Shown>,
) -> Result<End, AllocError>
    requires fits { Fits (attempt_of (D.system 0)) engine.old.walk engine.old.walk.awaited NoReply }
    requires room { length made.old.x ≡ (D.system 0).unknowns }
    ensures events { OnOk result (out.new ≡ out.old ++ events_of engine.old.walk.works) }
    ensures end { IfOk result (λ end. end ≡ engine.old.walk.end) }
{
    let mut reply = Reply::None;
    loop {
        let said = turn(engine, reply, made, out, shown)?;
        if let Moved::Ended(end) = said {
            return Ok(end);
        }
        reply = reply_to(engine, finder, looks, &said, made);
    }
}

fn run_design<D: Design>(
    alloc: Global,
    steps: &[StepRow],
    solutions: &[SolutionRow],
    cycles: Vec<CycleRow>,
    reads: bool,
    options: Options,
    looks: Looks,
    out: &mut EventList,
    shown: &mut Vec<Shown>,
) -> Result<End, AllocError>
    requires solves { SolvesAs (D.system 0) steps.now solutions.now reads options }
    requires runs { RunsAs (D.system 0) cycles.items reads }
    requires some { 1 ≤ length cycles.items }
    requires allowed { IsAllowed options }
    requires budgets { HasBudgets (D.system 0) }
    ensures events { OnOk result (out.new ≡ out.old ++ events_of (lockstep (D.system 0)).works) }
    ensures end { IfOk result (λ end. end ≡ (lockstep (D.system 0)).end) }
{
    let stepper: Listed<D> = Listed::new(alloc, steps, solutions, reads, &options)?;
    let mut finder: Listed<D> = Listed::new(alloc, steps, solutions, reads, &options)?;
    let kernel: Script<D> = Script::new(alloc, cycles, reads);
    let mut made = Attempt::blank(alloc, 1)?;
    let mut engine = Engine::new(stepper, kernel, options, alloc)?;
    drive(&mut engine, &mut finder, looks, &mut made, out, shown)
}

/// The whole run of a design that is listed. Each move is shown; whatever the looks find, the events and the end are those
/// of lockstep.
pub fn run(
    alloc: Global,
    steps: &[StepRow],
    solutions: &[SolutionRow],
    cycles: Vec<CycleRow>,
    reads: bool,
    options: Options,
    looks: Looks,
    out: &mut EventList,
    shown: &mut Vec<Shown>,
) -> Result<End, AllocError>
    requires some { 1 ≤ length cycles.items }
    requires allowed { IsAllowed options }
    ensures events { OnOk result (out.new ≡ out.old ++ events_of (lockstep (system_of steps.now solutions.now cycles.items reads options)).works) }
    ensures end { IfOk result (λ end. end ≡ (lockstep (system_of steps.now solutions.now cycles.items reads options)).end) }
{
    run_design::<Brand>(
        alloc, steps, solutions, cycles, reads, options, looks, out, shown,
    )
}
