//! How signals take the values of their drivers in a cycle (IEEE 1076, 14.7.3).
#![tactic(auto)]

ghost use Rattle.std.specs.Prelude.{◌≡◌, ◌≤◌, ◌<◌, ◌++◌, [], ℕ, length, map, false, Some, Ok, OnOk, OnErr, slice_get, slice_set, slice_index_or};
ghost use Rattle.std.specs.List.{All};
ghost use Rattle.ams_value.specs.declared.val.Val.{Val as Value};
ghost use Rattle.step_data.specs.Pending.{due, advanced};
ghost use Rattle.step_data.specs.declared.event.Event.TheVariants.{Signal};
ghost use Rattle.step_model.specs.Kernel.{AddsFront};
ghost use Rattle.design_meaning.specs.Readings.{still};
ghost use Rattle.cycle_meaning.specs.Cycles.{changed, driving, event_if, first_time, with_driving, signal_events};
ghost use Rattle.driver_set.specs.Queues.{AreLate};
ghost use Rattle.driving_values.specs.Driving.{seens, IsOrdered};

use ams_value::Val;
use driver_set::{DriverNumbers, DriverSet};
use fix_core::Tick;
use signal_store::SignalStore;
use std::alloc::AllocError;
use step_data::{Event, EventList};

/// Gives the event of a signal that changed.
fn give(
    out: &mut EventList,
    changed: bool,
    t: Tick,
    n: u32,
    i: u32,
    value: &Val,
) -> Result<(), AllocError>
    ensures ok { OnOk result (out.new ≡ out.old ++ event_if changed (Signal t n i value.now)) }
    ensures err { OnErr result (out.new ≡ out.old) }
{
    if changed {
        out.push(Event::Signal {
            t,
            n,
            i,
            value: *value,
        })?;
    }
    Ok(())
}

/// Gives a signal a value, and its event where that is another one.
fn change(
    signals: &mut SignalStore,
    i: u32,
    value: Val,
    t: Tick,
    n: u32,
    out: &mut EventList,
) -> Result<(), AllocError>
    requires within { i < length signals.old.values }
    requires still { slice_get signals.old.events i ≡ Some false }
    ensures values { OnOk result ((v : Value) → slice_get signals.old.values i ≡ Some v → seens signals.new.values signals.new.events ≡ slice_set (seens signals.old.values signals.old.events) i (changed (still v) value)) }
    ensures given { OnOk result ((v : Value) → slice_get signals.old.values i ≡ Some v → out.new ≡ out.old ++ event_if (changed (still v) value).event (Signal t n i value)) }
    ensures count { length signals.new.values ≡ length signals.old.values }
    ensures events { length signals.new.events ≡ length signals.new.values }
    ensures err { OnErr result (out.new ≡ out.old) }
{
    let changed = signals.set(i, value);
    let _ = signals.len();
    give(out, changed, t, n, i, &value)
}

/// Takes over the transaction of the time `t` of a driver; its signal takes the value.
fn drive_one(
    drivers: &mut DriverSet,
    numbers: &DriverNumbers,
    signals: &mut SignalStore,
    number: u32,
    t: Tick,
    n: u32,
    out: &mut EventList,
) -> Result<(), AllocError>
    requires within { number < length drivers.old }
    requires as_many { length drivers.old ≡ length numbers.now }
    requires late { All (λ x. t ≤ x.at) (slice_index_or drivers.old number []) }
    requires stands { first_time (slice_index_or drivers.old number []) ≡ Some t }
    requires signal { (d : ℕ) → slice_get numbers.now number ≡ Some d → d < length signals.old.values }
    requires still { (d : ℕ) → slice_get numbers.now number ≡ Some d → slice_get signals.old.events d ≡ Some false }
    ensures queues { OnOk result (drivers.new ≡ slice_set drivers.old number (advanced t (slice_index_or drivers.old number []))) }
    ensures seen { OnOk result ((d : ℕ) → (v : Value) → slice_get numbers.now number ≡ Some d → slice_get signals.old.values d ≡ Some v → seens signals.new.values signals.new.events ≡ slice_set (seens signals.old.values signals.old.events) d (driving (still v) (due t (slice_index_or drivers.old number [])))) }
    ensures given { OnOk result ((d : ℕ) → (v : Value) → slice_get numbers.now number ≡ Some d → slice_get signals.old.values d ≡ Some v → out.new ≡ out.old ++ event_if (driving (still v) (due t (slice_index_or drivers.old number []))).event (Signal t n d (driving (still v) (due t (slice_index_or drivers.old number []))).value)) }
    ensures values { length signals.new.values ≡ length signals.old.values }
    ensures events { length signals.new.events ≡ length signals.new.values }
    ensures count { length drivers.new ≡ length drivers.old }
    ensures err { OnErr result (out.new ≡ out.old) }
{
    let signal = numbers.signal(number);
    let _ = signals.len();
    let value = drivers.advance(number, t)?;
    change(signals, signal, value, t, n, out)
}

/// Each signal takes the value of its driver's transaction of the time `t`, if there is one, in signal order, with the events
/// of those that change. Where no memory is found, the events before were given.
pub fn drive(
    drivers: &mut DriverSet,
    numbers: &DriverNumbers,
    signals: &mut SignalStore,
    t: Tick,
    n: u32,
    out: &mut EventList,
) -> Result<(), AllocError>
    requires as_many { length drivers.old ≡ length numbers.now }
    requires late { AreLate t drivers.old }
    requires order { IsOrdered (length signals.old.values) numbers.now }
    ensures queues { OnOk result (drivers.new ≡ map (advanced t) drivers.old) }
    ensures seen { OnOk result (seens signals.new.values signals.new.events ≡ with_driving t numbers.now drivers.old 0 signals.old.values) }
    ensures given { OnOk result (out.new ≡ out.old ++ signal_events t n 0 (with_driving t numbers.now drivers.old 0 signals.old.values)) }
    ensures front { OnErr result (AddsFront out.old out.new (signal_events t n 0 (with_driving t numbers.now drivers.old 0 signals.old.values))) }
    ensures count { length drivers.new ≡ length drivers.old }
    ensures values { length signals.new.values ≡ length signals.old.values }
{
    let _ = drivers.len();
    signals.clear();
    while let Some(number) = drivers.first_due(t) {
        drive_one(drivers, numbers, signals, number, t, n, out)?;
    }
    Ok(())
}
