//! Which processes a cycle calls.
ghost use Rattle.std.specs.Prelude.{◌≡◌, ◌<◌, ◌++◌, ℕ, List, drop, length, map, true, None, OnOk};
ghost use Rattle.std.specs.List.{slice_index_or, All};
ghost use Rattle.std.specs.List.Sorted.{IsStrictlyIncreasing};
ghost use Rattle.cycle_meaning.specs.World.{World, Context};
ghost use Rattle.agenda.specs.Times.{is_time};
ghost use Rattle.next_cycle.specs.Next.{NoneIsEarlier};
ghost use Rattle.resumption.specs.Sleeps.{Sleep};
ghost use Rattle.resumption_calls.specs.Calls.{is_called, AreCalled};
ghost use Rattle.process_callers.specs.Callers.{callers_of, AreWithin};
ghost use Rattle.process_callers.specs.Calling.{heard, heard_from, unless_due, AreEvents};

use crate::callers::Callers;
use agenda::Agenda;
use fix_core::Tick;
use resumption_calls::put_in_order;
use std::alloc::AllocError;
use step_data::{Event, EventList};

/// Calls those that wait on the name that an event is of.
fn call_for(callers: &Callers, event: &Event, called: &mut Vec<u32>) -> Result<(), AllocError>
    ensures { OnOk result (called.new.items ≡ called.old.items ++ heard callers.now event.now) }
{
    match event {
        Event::Domain { .. } => called.extend_from_slice(callers.of_domain()),
        Event::Cross { k, .. } => called.extend_from_slice(callers.of_threshold(*k)),
        Event::Signal { i, .. } => called.extend_from_slice(callers.of_signal(*i)),
        _ => Ok(()),
    }
}

/// Calls those that wait on the names of the events from a place on.
fn call_for_events(
    callers: &Callers,
    events: &EventList,
    from: usize,
    called: &mut Vec<u32>,
) -> Result<(), AllocError>
    ensures { OnOk result (called.new.items ≡ called.old.items ++ heard_from callers.now from events.now) }
{
    let events = events.as_slice();
    for k in from..events.len() {
        call_for(callers, &events[k], called)?;
    }
    Ok(())
}

/// Calls those whose timeout is due, and takes it out.
fn call_for_timeouts(
    timeouts: &mut Agenda,
    now: Tick,
    called: &mut Vec<u32>,
) -> Result<(), AllocError>
    requires { NoneIsEarlier now timeouts.old }
    ensures left { OnOk result (timeouts.new ≡ map (unless_due now) timeouts.old) }
    ensures calls { OnOk result ((k : ℕ) → k < length timeouts.old → is_time (slice_index_or timeouts.old k None) now ≡ true → is_called called.new.items k ≡ true) }
    ensures keeps { OnOk result ((k : ℕ) → is_called called.old.items k ≡ true → is_called called.new.items k ≡ true) }
    ensures within { OnOk result (All (λ k. k < length timeouts.old) called.old.items → All (λ k. k < length timeouts.old) called.new.items) }
{
    while let Some(process) = timeouts.first_at(now) {
        called.push(process)?;
        timeouts.forget(process);
    }
    Ok(())
}

/// Calls the processes that wait on a name of which there is an event from a place on, and those whose timeout is due, in
/// order, each once. The timeouts that are due are taken out. Memory is taken only where more are called than ever before.
pub fn call(
    callers: &Callers,
    timeouts: &mut Agenda,
    now: Tick,
    events: &EventList,
    from: usize,
    called: &mut Vec<u32>,
) -> Result<(), AllocError>
    requires early { NoneIsEarlier now timeouts.old }
    requires within { AreWithin (length timeouts.old) callers.now }
    ensures rises { OnOk result (IsStrictlyIncreasing called.new.items) }
    ensures within { OnOk result (All (λ k. k < length timeouts.old) called.new.items) }
    ensures timeouts { OnOk result (timeouts.new ≡ map (unless_due now) timeouts.old) }
    ensures calls { OnOk result ((at : ℕ → Context) (w : World) (sleeps : List Sleep) (n : ℕ) → ((k : ℕ) → (at k).t ≡ now) → map (λ z. z.timeout) sleeps ≡ timeouts.old → AreEvents callers.now w now n (drop from events.now) → AreCalled at w (callers_of (length timeouts.old) callers.now) sleeps called.new.items) }
{
    called.clear();
    call_for_events(callers, events, from, called)?;
    call_for_timeouts(timeouts, now, called)?;
    put_in_order(called);
    Ok(())
}
