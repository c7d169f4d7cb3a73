//! How a world is made, and which process acts on it.
ghost use Rattle.std.specs.Prelude.{◌≡◌, false, []};
ghost use Rattle.design_meaning.specs.Readings.{still};
ghost use Rattle.design_meaning.specs.Reading.{quiescent_domain};
ghost use Rattle.threshold_set.specs.Crossed.{sights};
ghost use Rattle.kernel_world.specs.Reading.{seens};
ghost use Rattle.kernel_world.specs.Sound.{IsSound, HasPlaces};
ghost use Rattle.kernel_world.specs.Acting.{context_of, local_of, world_of};

use crate::world::World;
use ams_value::Val;
use driver_set::{DriverNumbers, DriverSet};
use fix_core::Tick;
use flat_design::Flat;
use signal_store::SignalStore;
use std::alloc::Global;
use std::mem;
use step_data::{BreakList, EventList, Point};
use threshold_set::ThresholdSet;

impl<'a> World<'a> {
    /// The world of a design at time 0, of these drivers, signals, thresholds and unknowns. Nothing has happened, and process 0
    /// acts, which has no variable yet.
    pub fn new(
        alloc: Global,
        flat: &'a Flat,
        numbers: DriverNumbers,
        drivers: DriverSet,
        signals: SignalStore,
        thresholds: ThresholdSet,
        point: Point,
    ) -> World<'a>
        requires sound { IsSound flat.now numbers drivers }
        requires places { HasPlaces flat.now signals.values thresholds.states thresholds.events point }
        ensures context { context_of result ≡ record { objects = flat.now; process = 0; t = 0; n = 0; x = point } }
        ensures world { world_of result ≡ record { signals = seens signals.values signals.events; thresholds = sights thresholds; domain = still quiescent_domain; queues = drivers; elements = []; broke = false; events = [] } }
        ensures variables { (local_of result).variables ≡ [] }
    {
        World {
            alloc,
            flat,
            numbers,
            drivers,
            signals,
            thresholds,
            timed: false,
            to_time: false,
            elements: BreakList::new(alloc),
            broke: false,
            events: EventList::new(alloc),
            process: 0,
            time: Tick::new(0).unwrap(),
            delta: 0,
            point,
            variables: Vec::new(alloc),
        }
    }

    /// Lets a process act, whose variables are exchanged for those of the one before.
    pub fn turn_to(&mut self, process: u32, variables: &mut Vec<Val>)
        ensures context { context_of self.new ≡ record (context_of self.old) { process = process } }
        ensures local { local_of self.new ≡ record (local_of self.old) { variables = variables.old.items } }
        ensures before { variables.new.items ≡ (local_of self.old).variables }
    {
        self.process = process;
        mem::swap(&mut self.variables, variables);
    }

    /// Exchanges the events so far for those of a list.
    pub fn exchange_events(&mut self, events: &mut EventList)
        ensures context { context_of self.new ≡ context_of self.old }
        ensures local { local_of self.new ≡ record (local_of self.old) { world = record (world_of self.old) { events = events.old } } }
        ensures before { events.new ≡ (world_of self.old).events }
    {
        mem::swap(&mut self.events, events);
    }
}
