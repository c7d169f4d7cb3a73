//! The beginning of a cycle.
ghost use Rattle.std.specs.Prelude.{◌≡◌, ◌≤◌, [], false, length, map, IfSome, OnOk, OnErr};
ghost use Rattle.std.specs.List.{All};
ghost use Rattle.flat_design.specs.Order.{unknown_count};
ghost use Rattle.step_model.specs.System.{Digital};
ghost use Rattle.step_model.specs.Kernel.{AddsFront};
ghost use Rattle.cycle_meaning.specs.Cycles.{domain_in, world_of as begun_world};
ghost use Rattle.driver_set.specs.Queues.{times_of};
ghost use Rattle.kernel_world.specs.Acting.{context_of, local_of, world_of};
ghost use Rattle.kernel_world.specs.Beginning.{IsLeft, behind};

use crate::world::World;
use cycle_changes::change_all;
use fix_core::Tick;
use std::alloc::AllocError;
use step_data::Point;

impl World<'_> {
    /// Takes over the moment of a cycle and the unknowns; no break was executed in it yet.
    fn enter(&mut self, t: Tick, n: u32, x: &Point, to_time: bool)
        requires { length x.now ≡ unknown_count (context_of self.old).objects }
        ensures context { context_of self.new ≡ record (context_of self.old) { t = t; n = n; x = x.now } }
        ensures variables { (local_of self.new).variables ≡ (local_of self.old).variables }
        ensures world { world_of self.new ≡ record (world_of self.old) { domain = domain_in self.old.timed to_time; elements = []; broke = false } }
    {
        self.time = t;
        self.delta = n;
        self.point.copy_from(x);
        self.timed = self.timed || to_time;
        self.to_time = to_time;
        self.elements.clear();
        self.broke = false;
    }

    /// Takes over the unknowns.
    pub fn take_point(&mut self, x: &Point)
        requires { length x.now ≡ unknown_count (context_of self.old).objects }
        ensures context { context_of self.new ≡ record (context_of self.old) { x = x.now } }
        ensures local { local_of self.new ≡ local_of self.old }
    {
        self.point.copy_from(x);
    }

    /// Begins the cycle at a time and a delta (IEEE 1076, 14.7.5): the thresholds take their values at the point `x`, signals those
    /// of the transactions of the time `t`, and DOMAIN becomes TIME_DOMAIN where `to_time` says so. The events go behind those
    /// so far. Where no memory is found, a front of them was given, and the world is of no use any more.
    pub fn begin(&mut self, t: Tick, n: u32, x: &Point, to_time: bool) -> Result<(), AllocError>
        requires late { All (λ time. IfSome time (λ first. t ≤ first)) (times_of (world_of self.old).queues) }
        requires point { length x.now ≡ unknown_count (context_of self.old).objects }
        ensures context { context_of self.new ≡ record (context_of self.old) { t = t; n = n; x = x.now } }
        ensures variables { (local_of self.new).variables ≡ (local_of self.old).variables }
        ensures world { OnOk result ((d : Digital) → IsLeft d (world_of self.old) → world_of self.new ≡ behind (world_of self.old).events (begun_world (context_of self.old).objects d t n x.now to_time)) }
        ensures front { OnErr result ((d : Digital) → IsLeft d (world_of self.old) → AddsFront (world_of self.old).events (world_of self.new).events (begun_world (context_of self.old).objects d t n x.now to_time).events) }
    {
        self.enter(t, n, x, to_time);
        let _ = self.signals.len();
        let _ = self.drivers.len();
        change_all(
            &mut self.thresholds,
            &mut self.drivers,
            &self.numbers,
            &mut self.signals,
            &self.point,
            t,
            n,
            to_time,
            &mut self.events,
        )?;
        Ok(())
    }
}
