//! The parts of a kernel.
ghost use Rattle.std.specs.Prelude.{◌≡◌, ◌<◌, ◌^◌, length, map, None, replicate, false, IfOk, pos, []};
ghost use Rattle.flat_design.specs.Order.{unknown_count};
ghost use Rattle.cycle_meaning.specs.Cycles.{context_at, first_world};
ghost use Rattle.design_rules.specs.Design.{IsDesign};
ghost use Rattle.kernel_world.specs.Acting.{context_of, world_of};
ghost use Rattle.process_runs.specs.Kept.{AreUnstarted};
ghost use Rattle.resumption.specs.Waits.{AreWaits};
ghost use Rattle.kernel_state.specs.Lists.{AreCallers};
ghost use Rattle.kernel_state.specs.State.{IsBuilt};

use agenda::Agenda;
use flat_design::Flat;
use held_value::Held;
use kernel_world::World;
use proc_exec::StatementRoom;
use process_callers::Callers;
use process_runs::{KeptProcess, unstarted};
use resumption::Waits;
use std::alloc::{AllocError, Global};
use step_data::EventList;
use world_of_design::first_world;

/// The world, what is kept of each process, the waits of the design, the timeouts, the lists of callers, and room for the processes
/// that are called, for those that resume, for the lists that statements make and for the events of a cycle.
#[derive(Drop)]
pub struct KernelParts<'a> {
    pub world: World<'a>,
    pub kept: Vec<KeptProcess>,
    pub waits: Waits<'a>,
    pub timeouts: Agenda,
    pub callers: Callers,
    pub called: Vec<u32>,
    pub resumed: Vec<bool>,
    pub room: StatementRoom,
    pub events: EventList,
}

/// What is kept of each process, and the waits of the design.
#[derive(Drop)]
struct Sleepers<'a> {
    kept: Vec<KeptProcess>,
    waits: Waits<'a>,
}

/// The timeouts, the lists of callers and the marks of the processes that resume.
#[derive(Drop)]
struct Calls {
    timeouts: Agenda,
    callers: Callers,
    resumed: Vec<bool>,
}

/// A mark for each process, none of which is set.
fn unmarked(alloc: Global, flat: &Flat) -> Result<Vec<bool>, AllocError>
    ensures { IfOk result (λ marks. marks.items ≡ replicate (length flat.now.processes) false) }
{
    vec![in alloc; false; flat.processes().len()]
}

/// The processes of a design before their first run, and its waits.
fn sleepers_of(alloc: Global, flat: &Flat) -> Result<Sleepers<'_>, AllocError>
    ensures kept { IfOk result (λ sleepers. AreUnstarted flat.now.processes sleepers.kept.items) }
    ensures waits { IfOk result (λ sleepers. AreWaits flat.now.processes sleepers.waits) }
{
    let processes = flat.processes();
    let waits = Waits::new(alloc, processes)?;
    let kept = unstarted(alloc, processes)?;
    Ok(Sleepers { kept, waits })
}

/// The timeouts of the processes, of which none has one.
fn no_timeouts(alloc: Global, flat: &Flat) -> Result<Agenda, AllocError>
    requires { length flat.now.processes < 2 ^ 32 }
    ensures { IfOk result (λ timeouts. timeouts ≡ replicate (length flat.now.processes) None) }
{
    Agenda::new(alloc, flat.processes().len() as u32)
}

/// The lists of callers of a design.
fn lists_of(alloc: Global, flat: &Flat) -> Result<Callers, AllocError>
    requires { length flat.now.processes < 2 ^ 32 }
    ensures { IfOk result (λ callers. AreCallers flat.now callers) }
{
    let callers = Callers::new(alloc, flat)?;
    Ok(callers)
}

/// No timeouts and no marks, and the lists of callers of a design.
fn calls_of(alloc: Global, flat: &Flat) -> Result<Calls, AllocError>
    requires { length flat.now.processes < 2 ^ 32 }
    ensures timeouts { IfOk result (λ calls. calls.timeouts ≡ replicate (length flat.now.processes) None) }
    ensures callers { IfOk result (λ calls. AreCallers flat.now calls.callers) }
    ensures resumed { IfOk result (λ calls. calls.resumed.items ≡ replicate (length flat.now.processes) false) }
{
    let resumed = unmarked(alloc, flat)?;
    let timeouts = Held::new(no_timeouts(alloc, flat)?);
    let callers = lists_of(alloc, flat)?;
    Ok(Calls {
        timeouts: timeouts.into_inner(),
        callers,
        resumed,
    })
}

/// The parts of a kernel, with nothing called and no events.
fn joined<'a>(
    alloc: Global,
    world: World<'a>,
    sleepers: Sleepers<'a>,
    calls: Calls,
) -> KernelParts<'a>
    requires few { length (context_of world).objects.processes < 2 ^ 32 }
    requires waits { AreWaits (context_of world).objects.processes sleepers.waits }
    requires callers { AreCallers (context_of world).objects calls.callers }
    requires resumed { calls.resumed.items ≡ replicate (length (context_of world).objects.processes) false }
    ensures built { IsBuilt result }
    ensures events { result.events ≡ [] }
    ensures world { result.world ≡ world.entry }
    ensures kept { result.kept ≡ sleepers.entry.kept }
    ensures timeouts { result.timeouts ≡ calls.timeouts }
{
    let Sleepers { kept, waits } = sleepers;
    let Calls {
        timeouts,
        callers,
        resumed,
    } = calls;
    KernelParts {
        world,
        kept,
        waits,
        timeouts,
        callers,
        called: Vec::new(alloc),
        resumed,
        room: StatementRoom::new(alloc),
        events: EventList::new(alloc),
    }
}

impl<'a> KernelParts<'a> {
    /// The parts for a design, before its start.
    pub fn new(alloc: Global, flat: &'a Flat) -> Result<KernelParts<'a>, AllocError>
        requires { IsDesign flat.now }
        ensures built { IfOk result (λ k. IsBuilt k) }
        ensures events { IfOk result (λ k. k.events ≡ []) }
        ensures context { IfOk result (λ k. context_of k.world ≡ context_at flat.now 0 0 (replicate (unknown_count flat.now) (pos 0)) 0) }
        ensures world { IfOk result (λ k. world_of k.world ≡ first_world flat.now) }
        ensures kept { IfOk result (λ k. AreUnstarted flat.now.processes k.kept.items) }
        ensures timeouts { IfOk result (λ k. k.timeouts ≡ replicate (length flat.now.processes) None) }
    {
        let calls = Held::new(calls_of(alloc, flat)?);
        let sleepers = Held::new(sleepers_of(alloc, flat)?);
        let world = first_world(alloc, flat)?;
        Ok(joined(alloc, world, sleepers.into_inner(), calls.into_inner()))
    }
}
