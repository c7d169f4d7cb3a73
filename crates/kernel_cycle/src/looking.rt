//! A look at the processes that are called.
ghost use Rattle.std.specs.Prelude.{◌≡◌, ◌<◌, ℕ, length, map, replicate, slice_index_or, true, false, OnOk};
ghost use Rattle.std.specs.List.{All, Contains};
ghost use Rattle.std.specs.List.Sorted.{IsStrictlyIncreasing};
ghost use Rattle.cycle_meaning.specs.Cycles.{resumes};
ghost use Rattle.kernel_world.specs.Acting.{context_of, world_of};
ghost use Rattle.process_runs.specs.Kept.{numbered, states_kept, CanRun};
ghost use Rattle.process_runs.specs.Sleeping.{asleep};
ghost use Rattle.resumption.specs.Sleeps.{waits_of};
ghost use Rattle.resumption.specs.Waits.{AreWaits, answered};
ghost use Rattle.resumption_calls.specs.Calls.{HaveCallers, AreCalled};
ghost use Rattle.process_callers.specs.Callers.{callers_of};

use kernel_world::World;
use process_callers::Callers;
use process_runs::{KeptProcess, waiting_processes_sleep};
use resumption::Waits;
use resumption_calls::{calls_suffice, resume_called};
use step_data::Refusal;

/// Finds which processes resume, of those that were called. No other is marked.
pub fn look(
    world: &World,
    waits: &Waits,
    kept: &[KeptProcess],
    callers: &Callers,
    called: &[u32],
    resumed: &mut [bool],
) -> Result<(), Refusal>
    requires can { CanRun (context_of world.now) (world_of world.now) (context_of world.now).objects.processes kept.now }
    requires waits { AreWaits (context_of world.now).objects.processes waits.now }
    requires callers { HaveCallers (callers_of (length kept.now) callers.now) (map waits_of (context_of world.now).objects.processes) }
    requires rises { IsStrictlyIncreasing called.now }
    requires within { All (λ k. k < length kept.now) called.now }
    requires calls { AreCalled (numbered (context_of world.now)) (world_of world.now) (callers_of (length kept.now) callers.now) (map asleep kept.now) called.now }
    requires room { resumed.old ≡ replicate (length kept.now) false }
    ensures found { answered result resumed.new ≡ resumes (numbered (context_of world.now)) (world_of world.now) 0 (context_of world.now).objects.processes (states_kept (context_of world.now).objects.processes kept.now) }
    ensures marked { OnOk result ((k : ℕ) → slice_index_or resumed.new k false ≡ true → Contains called.now k) }
    ensures count { length resumed.new ≡ length resumed.old }
{
    waiting_processes_sleep();
    calls_suffice();
    let _ = callers;
    resume_called(waits, world, kept, called, resumed)
}
