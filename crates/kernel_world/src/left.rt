//! What is read of a world between cycles.
ghost use Rattle.std.specs.Prelude.{◌≡◌, map};
ghost use Rattle.cycle_meaning.specs.Cycles.{kept_in, threshold_states};
ghost use Rattle.kernel_world.specs.Reading.{domain_value};
ghost use Rattle.kernel_world.specs.Acting.{context_of, world_of};

use crate::world::World;
use ams_value::Val;
use driver_set::DriverSet;
use flat_design::Flat;
use step_data::{BreakList, ThresholdList};

impl<'a> World<'a> {
    /// The design.
    pub fn flat(&self) -> &'a Flat
        ensures { result.now ≡ (context_of self.now).objects }
    {
        self.flat
    }

    /// The values of the signals.
    #[tactic(auto, using(crate::proofs::Beginning::values_of_seens))]
    pub fn signal_values(&self) -> &[Val]
        ensures { result.now ≡ map (λ s. s.value) (world_of self.now).signals }
    {
        let _ = self.signals.len();
        self.signals.values()
    }

    /// The thresholds with their values.
    pub fn threshold_list(&self) -> &ThresholdList
        ensures { result.now ≡ threshold_states (context_of self.now).objects.thresholds (kept_in (world_of self.now)) }
    {
        self.thresholds.list()
    }

    /// Whether DOMAIN is TIME_DOMAIN.
    pub fn is_timed(&self) -> bool
        ensures { domain_value result ≡ (world_of self.now).domain.value }
    {
        self.timed
    }

    /// The drivers with their pending transactions.
    pub fn drivers(&self) -> &DriverSet
        ensures { result.now ≡ (world_of self.now).queues }
    {
        &self.drivers
    }

    /// The break elements that were executed since the cycle began.
    pub fn break_list(&self) -> &BreakList
        ensures { result.now ≡ (world_of self.now).elements }
    {
        &self.elements
    }

    /// Whether a break was executed since the cycle began.
    pub fn has_broken(&self) -> bool
        ensures { result ≡ (world_of self.now).broke }
    {
        self.broke
    }
}
