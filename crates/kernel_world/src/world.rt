//! The world of the process that runs.
ghost use Rattle.kernel_world.specs.Sound.{IsSound, HasPlaces};

use ams_value::Val;
use driver_set::{DriverNumbers, DriverSet};
use fix_core::Tick;
use flat_design::Flat;
use signal_store::SignalStore;
use std::alloc::Global;
use step_data::{BreakList, EventList, Point};
use threshold_set::ThresholdSet;

/// The state of the digital side while a cycle runs, with the process that runs and its variables.
#[derive(Drop)]
pub struct World<'a> {
    pub(crate) alloc: Global,
    pub(crate) flat: &'a Flat,
    pub(crate) numbers: DriverNumbers,
    pub(crate) drivers: DriverSet,
    pub(crate) signals: SignalStore,
    pub(crate) thresholds: ThresholdSet,
    /// Whether DOMAIN is TIME_DOMAIN, and whether it became that in this cycle.
    pub(crate) timed: bool,
    pub(crate) to_time: bool,
    pub(crate) elements: BreakList,
    pub(crate) broke: bool,
    pub(crate) events: EventList,
    pub(crate) process: u32,
    pub(crate) time: Tick,
    pub(crate) delta: u32,
    pub(crate) point: Point,
    pub(crate) variables: Vec<Val>,
    ghost sound: { IsSound flat.now numbers drivers },
    ghost places: { HasPlaces flat.now signals.values thresholds.states thresholds.events point },
}
