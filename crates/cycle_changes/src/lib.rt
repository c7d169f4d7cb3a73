//! What changes at the beginning of a cycle: DOMAIN, thresholds and driven signals, with their events.
#![tactic(auto)]

ghost use Rattle.std.specs.Prelude.{◌≡◌, ◌<◌, ◌++◌, length, map, OnOk, OnErr};
ghost use Rattle.step_data.specs.Pending.{advanced};
ghost use Rattle.step_data.specs.declared.event.Event.TheVariants.{Domain};
ghost use Rattle.step_model.specs.Kernel.{AddsFront};
ghost use Rattle.cycle_meaning.specs.Cycles.{event_if, with_driving};
ghost use Rattle.threshold_set.specs.Crossed.{crossed, crossed_of, after, silenced};
ghost use Rattle.driver_set.specs.Queues.{AreLate};
ghost use Rattle.driving_values.specs.Driving.{seens, IsOrdered};
ghost use Rattle.cycle_changes.specs.Changes.{events_of};

use driver_set::{DriverNumbers, DriverSet};
use fix_core::Tick;
use signal_store::SignalStore;
use std::alloc::AllocError;
use step_data::{Event, EventList, Point};
use threshold_set::ThresholdSet;

/// Gives the event of DOMAIN where it becomes TIME_DOMAIN.
fn give_domain(out: &mut EventList, to_time: bool, t: Tick, n: u32) -> Result<(), AllocError>
    ensures ok { OnOk result (out.new ≡ out.old ++ event_if to_time (Domain t n)) }
    ensures err { OnErr result (out.new ≡ out.old) }
{
    if to_time {
        out.push(Event::Domain { t, n })?;
    }
    Ok(())
}

/// Thresholds take their values at a point and driven signals those of their drivers, with the events of DOMAIN, of the
/// thresholds and of the signals in this order (the order is own). Where no memory is found, the events before were given.
pub fn change_all(
    thresholds: &mut ThresholdSet,
    drivers: &mut DriverSet,
    numbers: &DriverNumbers,
    signals: &mut SignalStore,
    point: &Point,
    t: Tick,
    n: u32,
    to_time: bool,
    out: &mut EventList,
) -> Result<(), AllocError>
    requires thresholds { length thresholds.old.states < 4294967296 }
    requires as_many { length drivers.old ≡ length numbers.now }
    requires late { AreLate t drivers.old }
    requires order { IsOrdered (length signals.old.values) numbers.now }
    ensures states { OnOk result (thresholds.new.states ≡ map (after point.now) thresholds.old.states) }
    ensures crossed { OnOk result (thresholds.new.events ≡ map (λ s. (crossed point.now s).event) thresholds.old.states) }
    ensures queues { OnOk result (drivers.new ≡ map (advanced t) drivers.old) }
    ensures seen { OnOk result (seens signals.new.values signals.new.events ≡ with_driving t numbers.now drivers.old 0 signals.old.values) }
    ensures given { OnOk result (out.new ≡ out.old ++ events_of to_time t n (crossed_of point.now thresholds.old.states) (with_driving t numbers.now drivers.old 0 signals.old.values)) }
    ensures front { OnErr result (AddsFront out.old out.new (events_of to_time t n (crossed_of point.now thresholds.old.states) (with_driving t numbers.now drivers.old 0 signals.old.values))) }
    ensures same { map silenced thresholds.new.states ≡ map silenced thresholds.old.states }
    ensures lengths { length thresholds.old.events ≡ length thresholds.old.states → length thresholds.new.events ≡ length thresholds.new.states }
    ensures drivers { length drivers.new ≡ length drivers.old }
    ensures signals { length signals.new.values ≡ length signals.old.values }
{
    give_domain(out, to_time, t, n)?;
    thresholds.update(point, t, n, out)?;
    driving_values::drive(drivers, numbers, signals, t, n, out)
}
