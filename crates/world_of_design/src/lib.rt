//! The world of a design before its first cycle.
#![tactic(auto)]

ghost use Rattle.std.specs.Prelude.{◌≡◌, ◌<◌, [], map, replicate, length, false, pos, IfOk};
ghost use Rattle.flat_design.specs.Order.{unknown_count};
ghost use Rattle.design_rules.specs.Design.{IsDesign};
ghost use Rattle.cycle_meaning.specs.World.{driven_of};
ghost use Rattle.cycle_meaning.specs.Cycles.{context_at, first_world};
ghost use Rattle.threshold_set.specs.Crossed.{off};
ghost use Rattle.kernel_world.specs.Acting.{context_of, local_of, world_of};

use ams_value::Val;
use driven_signals::{mark_all, marked};
use driver_set::{DriverNumbers, DriverSet};
use flat_design::{Flat, Signal};
use kernel_world::World;
use signal_store::SignalStore;
use std::alloc::{AllocError, Global};
use step_data::Point;
use threshold_set::ThresholdSet;

/// So many marks, none of which is set.
fn blank(alloc: Global, count: usize) -> Result<Vec<bool>, AllocError>
    ensures { IfOk result (λ flags. flags.items ≡ replicate count false) }
{
    vec![in alloc; false; count]
}

/// The driven signals, in signal order.
fn driven_of(alloc: Global, flat: &Flat) -> Result<Vec<u32>, AllocError>
    requires { IsDesign flat.now }
    ensures { IfOk result (λ driven. driven.items ≡ driven_of flat.now) }
{
    let mut flags = blank(alloc, flat.signals().len())?;
    mark_all(&mut flags, flat.processes());
    let driven = marked(alloc, flags.as_slice())?;
    Ok(driven)
}

/// The numbers of the drivers of the driven signals.
fn numbers_of(alloc: Global, flat: &Flat) -> Result<DriverNumbers, AllocError>
    requires { IsDesign flat.now }
    ensures { IfOk result (λ numbers. numbers ≡ driven_of flat.now) }
{
    let driven = driven_of(alloc, flat)?;
    DriverNumbers::new(alloc, flat.signals().len() as u32, driven)
}

fn initial_values(alloc: Global, signals: &[Signal]) -> Result<Vec<Val>, AllocError>
    ensures { IfOk result (λ values. values.items ≡ map (λ s. s.initial) signals.now) }
{
    signals.iter().map(|signal| signal.initial).collect(alloc)
}

/// The signals with their initial values.
fn signals_of(alloc: Global, flat: &Flat) -> Result<SignalStore, AllocError>
    ensures { IfOk result (λ store. store ≡ record { values = map (λ s. s.initial) flat.now.signals; events = replicate (length flat.now.signals) false }) }
{
    let values = initial_values(alloc, flat.signals())?;
    SignalStore::new(alloc, values)
}

/// A driver for each number, with nothing pending.
fn drivers_of(alloc: Global, numbers: &DriverNumbers) -> Result<DriverSet, AllocError>
    requires { length numbers.now < 4294967296 }
    ensures { IfOk result (λ drivers. drivers ≡ replicate (length numbers.now) []) }
{
    DriverSet::new(alloc, numbers.driven().len() as u32)
}

/// The world of its parts before the first cycle.
fn joined<'a>(
    alloc: Global,
    flat: &'a Flat,
    numbers: DriverNumbers,
    drivers: DriverSet,
    signals: SignalStore,
    thresholds: ThresholdSet,
    point: Point,
) -> World<'a>
    requires design { IsDesign flat.now }
    requires numbers { numbers ≡ driven_of flat.now }
    requires drivers { drivers ≡ replicate (length numbers) [] }
    requires values { signals.values ≡ map (λ s. s.initial) flat.now.signals }
    requires still { signals.events ≡ replicate (length flat.now.signals) false }
    requires states { thresholds.states ≡ map off flat.now.thresholds }
    requires off { thresholds.events ≡ replicate (length flat.now.thresholds) false }
    requires point { point ≡ replicate (unknown_count flat.now) (pos 0) }
    ensures context { context_of result ≡ context_at flat.now 0 0 (replicate (unknown_count flat.now) (pos 0)) 0 }
    ensures world { world_of result ≡ first_world flat.now }
    ensures variables { (local_of result).variables ≡ [] }
{
    World::new(alloc, flat, numbers, drivers, signals, thresholds, point)
}

/// The world of a design before its first cycle (IEEE 1076, 14.7.5.1): each signal has its initial value, no threshold is
/// passed, nothing is pending and each unknown is 0.
pub fn first_world(alloc: Global, flat: &Flat) -> Result<World<'_>, AllocError>
    requires { IsDesign flat.now }
    ensures context { IfOk result (λ w. context_of w ≡ context_at flat.now 0 0 (replicate (unknown_count flat.now) (pos 0)) 0) }
    ensures world { IfOk result (λ w. world_of w ≡ first_world flat.now) }
    ensures variables { IfOk result (λ w. (local_of w).variables ≡ []) }
{
    let numbers = numbers_of(alloc, flat)?;
    let drivers = drivers_of(alloc, &numbers)?;
    let signals = signals_of(alloc, flat)?;
    let thresholds = ThresholdSet::new(alloc, flat.thresholds())?;
    let point = Point::new(alloc, flat.unknown_count())?;
    Ok(joined(alloc, flat, numbers, drivers, signals, thresholds, point))
}
