//! What the rows read: three quantities, at a time; a signal that is 2.5, and one that is 3.

use ams_value::Val;
use expr_eval::Values;
use fix_core::{Fix, Tick};
use flat_expr::{SignalName, Unknown};

/// The values of the quantities, and the time.
#[derive(Drop)]
pub struct Point {
    pub first: Fix,
    pub second: Fix,
    pub third: Fix,
    pub time: Tick,
}

impl Values for Point {
    ghost use Rattle.tape_cases.specs.Rows.{readings_at};

    ghost readings = { λ point. readings_at point.first point.second point.third point.time };

    fn signal(&self, name: SignalName) -> Val {
        match name {
            SignalName::Signal(0) => Val::Real(Fix::exactly(2_500_000_000_000)),
            SignalName::Signal(1) => Val::Int(3),
            SignalName::Domain => Val::Enum(0, 1),
            _ => Val::Bool(false),
        }
    }

    fn event(&self, _name: SignalName) -> bool {
        false
    }

    fn unknown(&self, unknown: Unknown) -> Fix {
        match unknown {
            Unknown::Quantity(0) => self.first,
            Unknown::Quantity(1) => self.second,
            Unknown::Quantity(2) => self.third,
            _ => Fix::exactly(0),
        }
    }

    fn variable(&self, _number: u32) -> Val {
        Val::Bool(false)
    }

    fn time(&self) -> Tick {
        self.time
    }
}
