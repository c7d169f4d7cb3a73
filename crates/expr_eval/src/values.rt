//! What an expression reads.
ghost use Rattle.std.specs.Prelude.{◌≡◌};
ghost use Rattle.design_meaning.specs.Readings.{Readings, seen_of, unknown_of, variable_of};

use ams_value::Val;
use fix_core::{Fix, Tick};
use flat_expr::{SignalName, Unknown};

/// Lends what an expression reads: the signals with their events, the unknowns, the variables and the time. A number that
/// none of them has reads as FALSE without an event, or as 0.
pub trait Values {
    /// What is read.
    ghost readings: { Self → Readings };

    /// The value of a signal, a threshold signal or DOMAIN.
    fn signal(&self, name: SignalName) -> Val
        ensures { result ≡ (seen_of (readings self.now) name).value };

    /// Whether it had an event in the current cycle.
    fn event(&self, name: SignalName) -> bool
        ensures { result ≡ (seen_of (readings self.now) name).event };

    fn unknown(&self, unknown: Unknown) -> Fix
        ensures { result ≡ unknown_of (readings self.now) unknown };

    fn variable(&self, number: u32) -> Val
        ensures { result ≡ variable_of (readings self.now) number };

    fn time(&self) -> Tick
        ensures { result ≡ (readings self.now).now };
}
