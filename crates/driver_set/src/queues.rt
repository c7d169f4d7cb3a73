//! Drivers and the times of their first transactions.
ghost use Rattle.std.specs.Prelude.{◌≡◌, ◌≤◌, ◌<◌, [], length, replicate, position, Some, IfOk, OnOk, OnErr, slice_set, slice_index_or};
ghost use Rattle.std.specs.List.{All};
ghost use Rattle.std.specs.Option.{option_map};
ghost use Rattle.step_data.specs.Pending.{due, advanced};
ghost use Rattle.step_data.specs.Times.{earliest_of};
ghost use Rattle.waveform.specs.Projected.{IsRising, projected};
ghost use Rattle.cycle_meaning.specs.Cycles.{first_time};
ghost use Rattle.driver_set.specs.Queues.{queues_of, times_of, stands_first, AreLate, AreRising};

use agenda::Agenda;
use ams_value::Val;
use fix_core::Tick;
use std::alloc::{AllocError, Global};
use std::marker::Model;
use step_data::Trans;
use waveform::{DelayKind, Driver};

/// A driver for each driven signal, by number, and the time of the first transaction of each.
#[derive(Drop)]
pub struct DriverSet {
    alloc: Global,
    drivers: Vec<Driver>,
    agenda: Agenda,
}

impl Model for DriverSet {
    ghost use Rattle.std.specs.Prelude.{List};
    ghost use Rattle.step_data.specs.declared.trans.Trans.{Trans};
    ghost use Rattle.driver_set.specs.Queues.{queues_of};

    ghost Value = { List (List Trans) };

    ghost use Rattle.driver_set.specs.InStep.{IsInStep};

    ghost view = { λ a. queues_of a.drivers.items };

    ghost invariant = { λ a. IsInStep a.drivers.items a.agenda };
}

/// Assigns a waveform to a driver, and answers the time of its first transaction then.
fn assign_at(
    drivers: &mut Vec<Driver>,
    number: usize,
    now: Tick,
    kind: DelayKind,
    reject: u64,
    new: &[Trans],
) -> Result<Option<Tick>, AllocError>
    requires within { number < length drivers.old.items }
    requires some { 0 < length new.now }
    requires rising { IsRising new.now }
    requires later { All (λ x. now ≤ x.at) new.now }
    ensures ok { OnOk result (queues_of drivers.new.items ≡ slice_set (queues_of drivers.old.items) number (projected kind reject (slice_index_or (queues_of drivers.old.items) number []) new.now)) }
    ensures time { IfOk result (λ time. time ≡ first_time (projected kind reject (slice_index_or (queues_of drivers.old.items) number []) new.now)) }
    ensures err { OnErr result (queues_of drivers.new.items ≡ queues_of drivers.old.items) }
{
    let driver = &mut drivers[number];
    driver.assign(now, kind, reject, new)?;
    Ok(driver.next_time())
}

/// Takes over the transaction of the time `t` of a driver. It answers the value of the driver then, and the time of the
/// next one.
fn advance_at(drivers: &mut Vec<Driver>, number: usize, t: Tick) -> (Val, Option<Tick>)
    requires within { number < length drivers.old.items }
    requires later { All (λ x. t ≤ x.at) (slice_index_or (queues_of drivers.old.items) number []) }
    requires stands { first_time (slice_index_or (queues_of drivers.old.items) number []) ≡ Some t }
    ensures queues { queues_of drivers.new.items ≡ slice_set (queues_of drivers.old.items) number (advanced t (slice_index_or (queues_of drivers.old.items) number [])) }
    ensures value { option_map (λ x. x.value) (due t (slice_index_or (queues_of drivers.old.items) number [])) ≡ Some result.0 }
    ensures time { result.1 ≡ first_time (advanced t (slice_index_or (queues_of drivers.old.items) number [])) }
{
    let driver = &mut drivers[number];
    let _ = driver.advance(t);
    (driver.now_value(), driver.next_time())
}

/// Takes the pending transactions of a driver away.
fn clear_at(alloc: Global, drivers: &mut Vec<Driver>, number: usize)
    requires { number < length drivers.old.items }
    ensures { queues_of drivers.new.items ≡ slice_set (queues_of drivers.old.items) number [] }
{
    let value = drivers[number].now_value();
    drivers[number] = Driver::new(alloc, value);
}

/// Gives the agenda the time of a driver's first transaction. Where no memory is found, the driver loses its transactions.
fn enter(
    alloc: Global,
    drivers: &mut Vec<Driver>,
    agenda: &mut Agenda,
    number: u32,
    time: Option<Tick>,
) -> Result<(), AllocError>
    requires within { number < length drivers.old.items }
    requires agenda { number < length agenda.old }
    requires rising { AreRising (queues_of drivers.old.items) }
    requires step { slice_set agenda.old number time ≡ times_of (queues_of drivers.old.items) }
    ensures step { agenda.new ≡ times_of (queues_of drivers.new.items) }
    ensures count { length (queues_of drivers.new.items) ≡ length (queues_of drivers.old.items) }
    ensures rising { AreRising (queues_of drivers.new.items) }
    ensures ok { OnOk result (queues_of drivers.new.items ≡ queues_of drivers.old.items) }
{
    let Ok(()) = agenda.set(number, time) else {
        clear_at(alloc, drivers, number as usize);
        agenda.forget(number);
        return Err(AllocError);
    };
    Ok(())
}

/// So many drivers with nothing pending. Their values don't count.
fn idle_drivers(alloc: Global, count: u32) -> Result<Vec<Driver>, AllocError>
    ensures { IfOk result (λ drivers. queues_of drivers.items ≡ replicate count []) }
{
    let mut drivers = Vec::new(alloc);
    for _ in 0..count {
        drivers.push(Driver::new(alloc, Val::Bool(false)))?;
    }
    Ok(drivers)
}

impl DriverSet {
    /// So many drivers with nothing pending.
    pub fn new(alloc: Global, count: u32) -> Result<DriverSet, AllocError>
        ensures { IfOk result (λ set. set ≡ replicate count []) }
    {
        let drivers = idle_drivers(alloc, count)?;
        let agenda = Agenda::new(alloc, count)?;
        Ok(DriverSet {
            alloc,
            drivers,
            agenda,
        })
    }

    /// How many drivers there are.
    pub fn len(&self) -> usize
        ensures count { result ≡ length self.now }
        ensures rising { AreRising self.now }
    {
        self.drivers.len()
    }

    /// Assigns a waveform to a driver at the time `now` (IEEE 1076, execution of a signal assignment). Where no memory is
    /// found, the driver may lose its transactions.
    pub fn assign(
        &mut self,
        number: u32,
        now: Tick,
        kind: DelayKind,
        reject: u64,
        new: &[Trans],
    ) -> Result<(), AllocError>
        requires within { number < length self.old }
        requires some { 0 < length new.now }
        requires rising { IsRising new.now }
        requires later { All (λ x. now ≤ x.at) new.now }
        ensures ok { OnOk result (self.new ≡ slice_set self.old number (projected kind reject (slice_index_or self.old number []) new.now)) }
        ensures count { length self.new ≡ length self.old }
    {
        let next = assign_at(&mut self.drivers, number as usize, now, kind, reject, new)?;
        enter(
            self.alloc,
            &mut self.drivers,
            &mut self.agenda,
            number,
            next,
        )
    }

    /// The time of the first transaction of all.
    pub fn least(&self) -> Option<Tick>
        ensures { result ≡ earliest_of (times_of self.now) }
    {
        self.agenda.least()
    }

    /// The first driver of which a transaction stands at the time `t`, where none stands earlier.
    pub fn first_due(&self, t: Tick) -> Option<u32>
        requires { AreLate t self.now }
        ensures { result ≡ position (stands_first t) self.now }
    {
        self.agenda.first_at(t)
    }

    /// Takes over the transaction of the time `t` of a driver, and answers its value.
    pub fn advance(&mut self, number: u32, t: Tick) -> Result<Val, AllocError>
        requires within { number < length self.old }
        requires later { All (λ x. t ≤ x.at) (slice_index_or self.old number []) }
        requires stands { first_time (slice_index_or self.old number []) ≡ Some t }
        ensures ok { OnOk result (self.new ≡ slice_set self.old number (advanced t (slice_index_or self.old number []))) }
        ensures value { IfOk result (λ value. option_map (λ x. x.value) (due t (slice_index_or self.old number [])) ≡ Some value) }
        ensures count { length self.new ≡ length self.old }
    {
        let (value, next) = advance_at(&mut self.drivers, number as usize, t);
        enter(
            self.alloc,
            &mut self.drivers,
            &mut self.agenda,
            number,
            next,
        )?;
        Ok(value)
    }
}
