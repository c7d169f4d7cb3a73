//! The thresholds of a design with their values and their events of a cycle.
#![tactic(auto)]

ghost use Rattle.std.specs.Prelude.{◌≡◌, ◌<◌, ◌++◌, length, map, replicate, pos, false, IfOk, OnOk, OnErr, slice_index_or, slice_get, slice_set, Some};
ghost use Rattle.step_data.specs.Thresholds.{is_above};
ghost use Rattle.step_data.specs.declared.event.Event.TheVariants.{Cross};
ghost use Rattle.step_data.specs.declared.breaks.ThresholdState.{ThresholdState};
ghost use Rattle.step_model.specs.Kernel.{AddsFront};
ghost use Rattle.design_meaning.specs.Readings.{still};
ghost use Rattle.cycle_meaning.specs.Cycles.{event_if, crossings, is_on};
ghost use Rattle.threshold_set.specs.Crossed.{crossed, after, crossed_of, off, silenced, value_of, sights, ThresholdsCross};

use ams_value::{Val, equal};
use fix_core::{Fix, Tick};
use flat_design::Threshold;
use std::alloc::{AllocError, Global};
use std::marker::Model;
use step_data::{Event, EventList, Point, ThresholdList, ThresholdState};

/// The thresholds by number, and whether each had an event in the current cycle.
#[derive(Drop)]
pub struct ThresholdSet {
    list: ThresholdList,
    events: Vec<bool>,
}

impl Model for ThresholdSet {
    ghost use Rattle.std.specs.Prelude.{◌≡◌, length};
    ghost use Rattle.threshold_set.specs.Crossed.{Thresholds};

    ghost Value = { Thresholds };

    ghost view = { λ a. record { states = a.list; events = a.events.items } };

    ghost invariant = { λ a. length a.events.items ≡ length a.list };
}

/// The number at a place of a point, 0 where there is none.
fn number_at(numbers: &[Fix], place: u32) -> Fix
    ensures { result ≡ slice_index_or numbers.now place (pos 0) }
{
    match numbers.get(place as usize) {
        Some(number) => *number,
        None => Fix::exactly(0),
    }
}

/// Whether a quantity is above a level (IEEE 1076.1, attribute 'ABOVE).
fn is_above(point: &Point, unknown: u32, level: Fix) -> bool
    ensures { result ≡ is_above point.now unknown level }
{
    level.units() < number_at(point.as_slice(), unknown).units()
}

/// Gives the event of a threshold that changed.
fn give(
    out: &mut EventList,
    changed: bool,
    t: Tick,
    n: u32,
    k: u32,
    on: bool,
) -> Result<(), AllocError>
    ensures ok { OnOk result (out.new ≡ out.old ++ event_if changed (Cross t n k on)) }
    ensures err { OnErr result (out.new ≡ out.old) }
{
    if changed {
        out.push(Event::Cross { t, n, k, on })?;
    }
    Ok(())
}

fn value_at(states: &[ThresholdState], k: u32) -> Val
    ensures { result ≡ value_of (slice_get states.now k) }
{
    match states.get(k as usize) {
        Some(state) => Val::Bool(state.on),
        None => Val::Bool(false),
    }
}

fn event_at(events: &[bool], k: u32) -> bool
    ensures { result ≡ slice_index_or events.now k false }
{
    match events.get(k as usize) {
        Some(event) => *event,
        None => false,
    }
}

/// Gives a threshold its value at a point, with its event if it changes.
fn update_one(
    list: &mut ThresholdList,
    events: &mut Vec<bool>,
    k: u32,
    point: &Point,
    t: Tick,
    n: u32,
    out: &mut EventList,
) -> Result<(), AllocError>
    requires list { k < length list.old }
    requires events { k < length events.old.items }
    ensures list { OnOk result ((s : ThresholdState) → slice_get list.old k ≡ Some s → list.new ≡ slice_set list.old k (after point.now s)) }
    ensures events { OnOk result ((s : ThresholdState) → slice_get list.old k ≡ Some s → events.new.items ≡ slice_set events.old.items k (crossed point.now s).event) }
    ensures given { OnOk result ((s : ThresholdState) → slice_get list.old k ≡ Some s → out.new ≡ out.old ++ event_if (crossed point.now s).event (Cross t n k (is_on (crossed point.now s).value))) }
    ensures err { OnErr result (out.new ≡ out.old) }
    ensures counts { OnErr result (length events.new.items ≡ length events.old.items) }
    ensures places { OnErr result (length list.new ≡ length list.old) }
    ensures same { map silenced list.new ≡ map silenced list.old }
{
    let state = list.get(k as usize);
    let on = is_above(point, state.unknown, state.level);
    let changed = !equal(Val::Bool(state.on), Val::Bool(on));
    give(out, changed, t, n, k, on)?;
    list.set(k as usize, ThresholdState { on, ..state });
    events[k as usize] = changed;
    Ok(())
}

/// Gives each threshold its value at a point.
fn update_all(
    list: &mut ThresholdList,
    events: &mut Vec<bool>,
    point: &Point,
    t: Tick,
    n: u32,
    out: &mut EventList,
) -> Result<(), AllocError>
    requires count { length list.old < 4294967296 }
    requires events { length events.old.items ≡ length list.old }
    ensures states { OnOk result (list.new ≡ map (after point.now) list.old) }
    ensures events { OnOk result (events.new.items ≡ map (λ s. (crossed point.now s).event) list.old) }
    ensures given { OnOk result (out.new ≡ out.old ++ crossings t n 0 (crossed_of point.now list.old)) }
    ensures front { OnErr result (AddsFront out.old out.new (crossings t n 0 (crossed_of point.now list.old))) }
    ensures lengths { length events.new.items ≡ length list.new }
    ensures same { map silenced list.new ≡ map silenced list.old }
{
    for k in 0..list.len() as u32 {
        update_one(list, events, k, point, t, n, out)?;
    }
    Ok(())
}

impl ThresholdSet {
    /// These thresholds, each of which is FALSE.
    pub fn new(alloc: Global, thresholds: &[Threshold]) -> Result<ThresholdSet, AllocError>
        ensures states { IfOk result (λ set. set.states ≡ map off thresholds.now) }
        ensures events { IfOk result (λ set. set.events ≡ replicate (length thresholds.now) false) }
    {
        let mut list = ThresholdList::new(alloc);
        for threshold in thresholds {
            list.push(ThresholdState {
                unknown: threshold.quantity,
                level: threshold.level,
                on: false,
            })?;
        }
        let events = vec![in alloc; false; list.len()]?;
        Ok(ThresholdSet { list, events })
    }

    /// The thresholds with their values.
    pub fn list(&self) -> &ThresholdList
        ensures { result.now ≡ self.now.states }
    {
        &self.list
    }

    /// The value of a threshold signal, FALSE at a number that none has.
    pub fn value(&self, k: u32) -> Val
        ensures { result ≡ (slice_index_or (sights self.now) k (still (Val.Bool false))).value }
    {
        value_at(self.list.as_slice(), k)
    }

    /// Whether a threshold signal had an event.
    pub fn event(&self, k: u32) -> bool
        ensures { result ≡ (slice_index_or (sights self.now) k (still (Val.Bool false))).event }
    {
        event_at(self.events.as_slice(), k)
    }

    /// Gives each threshold its value at a point, in order, with the events of those that change. Where no memory is found,
    /// the events before were given.
    pub fn update(
        &mut self,
        point: &Point,
        t: Tick,
        n: u32,
        out: &mut EventList,
    ) -> Result<(), AllocError>
        requires { length self.old.states < 4294967296 }
        ensures states { OnOk result (self.new.states ≡ map (after point.now) self.old.states) }
        ensures events { OnOk result (self.new.events ≡ map (λ s. (crossed point.now s).event) self.old.states) }
        ensures given { OnOk result (out.new ≡ out.old ++ crossings t n 0 (crossed_of point.now self.old.states)) }
        ensures front { OnErr result (AddsFront out.old out.new (crossings t n 0 (crossed_of point.now self.old.states))) }
        ensures lengths { length self.new.events ≡ length self.new.states }
        ensures same { map silenced self.new.states ≡ map silenced self.old.states }
    {
        update_all(&mut self.list, &mut self.events, point, t, n, out)
    }
}

/// The thresholds of a cycle are those of the definition. It is proved, and does nothing when it runs.
#[tactic(auto, using(crate::proofs::Laws::laws))]
pub fn thresholds_cross()
    ensures { ThresholdsCross }
{}
