//! What the process that runs reads.
ghost use Rattle.kernel_world.specs.Acting.{readings_of, context_of, local_of, reads_so};

use crate::reading::{domain_value, signal_event, signal_value, unknown_at, variable_at};
use crate::world::World;
use ams_value::Val;
use expr_eval::Values;
use fix_core::{Fix, Tick};
use flat_expr::{SignalName, Unknown};
use statement_values::Activation;

impl Values for World<'_> {
    ghost readings = { readings_of };

    fn signal(&self, name: SignalName) -> Val {
        match name {
            SignalName::Signal(i) => signal_value(&self.signals, i),
            SignalName::Threshold(k) => self.thresholds.value(k),
            SignalName::Domain => domain_value(self.timed),
        }
    }

    fn event(&self, name: SignalName) -> bool {
        match name {
            SignalName::Signal(i) => signal_event(&self.signals, i),
            SignalName::Threshold(k) => self.thresholds.event(k),
            SignalName::Domain => self.to_time,
        }
    }

    #[tactic(auto, using(crate::proofs::Seen::unknown_is))]
    fn unknown(&self, unknown: Unknown) -> Fix {
        unknown_at(self.flat, &self.point, unknown)
    }

    fn variable(&self, number: u32) -> Val {
        variable_at(self.variables.as_slice(), number)
    }

    fn time(&self) -> Tick {
        self.time
    }
}

impl Activation for World<'_> {
    ghost context = { context_of };

    ghost local = { local_of };

    fn process(&self) -> u32 {
        self.process
    }

    ghost reads = { reads_so };
}
