//! The processes that are called in a cycle.
ghost use Rattle.std.specs.Prelude.{◌≡◌, ◌<◌, ℕ, List, length, map, OnOk};
ghost use Rattle.std.specs.List.{All};
ghost use Rattle.std.specs.List.Sorted.{IsStrictlyIncreasing};
ghost use Rattle.cycle_meaning.specs.World.{World as CycleWorld, Context};
ghost use Rattle.kernel_world.specs.Acting.{context_of, local_of, world_of};
ghost use Rattle.next_cycle.specs.Next.{NoneIsEarlier};
ghost use Rattle.resumption.specs.Sleeps.{Sleep};
ghost use Rattle.resumption_calls.specs.Calls.{AreCalled};
ghost use Rattle.process_callers.specs.Callers.{callers_of, AreWithin};
ghost use Rattle.process_callers.specs.Calling.{unless_due, AreEvents};

use agenda::Agenda;
use cycle_parts::events_are_given_back;
use fix_core::Tick;
use kernel_world::World;
use process_callers::{Callers, call};
use std::alloc::AllocError;
use step_data::EventList;

/// Calls the processes that wait on what had an event since the cycle began, and those whose timeout is due. The events of the
/// world are lent out in the meantime.
pub fn call_processes(
    world: &mut World,
    events: &mut EventList,
    callers: &Callers,
    timeouts: &mut Agenda,
    called: &mut Vec<u32>,
    now: Tick,
) -> Result<(), AllocError>
    requires early { NoneIsEarlier now timeouts.old }
    requires within { AreWithin (length timeouts.old) callers.now }
    ensures context { context_of world.new ≡ context_of world.old }
    ensures local { local_of world.new ≡ local_of world.old }
    ensures events { events.new ≡ events.old }
    ensures rises { OnOk result (IsStrictlyIncreasing called.new.items) }
    ensures within { OnOk result (All (λ k. k < length timeouts.old) called.new.items) }
    ensures timeouts { OnOk result (timeouts.new ≡ map (unless_due now) timeouts.old) }
    ensures calls { OnOk result ((at : ℕ → Context) (w : CycleWorld) (sleeps : List Sleep) (n : ℕ) → ((k : ℕ) → (at k).t ≡ now) → map (λ z. z.timeout) sleeps ≡ timeouts.old → AreEvents callers.now w now n (world_of world.old).events → AreCalled at w (callers_of (length timeouts.old) callers.now) sleeps called.new.items) }
{
    events_are_given_back();
    world.exchange_events(events);
    let answer = call(callers, timeouts, now, events, 0, called);
    world.exchange_events(events);
    answer
}
