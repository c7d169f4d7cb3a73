//! The values that an equation reads.
ghost use Rattle.std.specs.Prelude.{◌≡◌, false, map, pos, slice_index_or};
ghost use Rattle.design_meaning.specs.Readings.{still};
ghost use Rattle.equation_values.specs.Reading.{readings_in, seen_at};

use ams_value::Val;
use expr_eval::Values;
use fix_core::{Fix, Tick};
use flat_expr::{SignalName, Unknown};
use step_data::ChooseKind;

/// Lends what equations read: the places of the signals and the thresholds in a frame, the frame, for which value of
/// DOMAIN, the time, and a point by the kinds of its unknowns.
#[derive(Clone, Copy)]
pub struct EquationValues<'a> {
    pub signals: &'a [usize],
    pub thresholds: &'a [usize],
    pub frame: &'a [Val],
    pub kind: ChooseKind,
    pub time: Tick,
    pub quantities: &'a [Fix],
    pub references: &'a [Fix],
    pub dots: &'a [Fix],
}

/// The value of a signal of this number, by the places in the frame. One that isn't there is FALSE.
#[tactic(auto, using(crate::proofs::Places::value_found, crate::proofs::Places::value_missing))]
fn value_at(places: &[usize], frame: &[Val], number: u32) -> Val
    ensures { result ≡ (slice_index_or (map (seen_at frame.now) places.now) number (still (Val.Bool false))).value }
{
    match places.get(number as usize) {
        Some(place) => match frame.get(*place) {
            Some(value) => *value,
            None => Val::Bool(false),
        },
        None => Val::Bool(false),
    }
}

/// The number of a place, 0 where there is none.
fn number_at(numbers: &[Fix], place: u32) -> Fix
    ensures { result ≡ slice_index_or numbers.now place (pos 0) }
{
    match numbers.get(place as usize) {
        Some(number) => *number,
        None => Fix::exactly(0),
    }
}

impl Values for EquationValues<'_> {
    ghost readings = { readings_in };

    fn signal(&self, name: SignalName) -> Val {
        match name {
            SignalName::Signal(i) => value_at(self.signals, self.frame, i),
            SignalName::Threshold(k) => value_at(self.thresholds, self.frame, k),
            SignalName::Domain => match self.kind {
                ChooseKind::Quiet => Val::Enum(0, 0),
                ChooseKind::Timed => Val::Enum(0, 1),
            },
        }
    }

    #[tactic(auto, using(crate::proofs::Places::no_events))]
    fn event(&self, _name: SignalName) -> bool {
        let _frame = self.frame;
        false
    }

    fn unknown(&self, unknown: Unknown) -> Fix {
        match unknown {
            Unknown::Quantity(i) => number_at(self.quantities, i),
            Unknown::Reference(i) => number_at(self.references, i),
            Unknown::Dot(i) => number_at(self.dots, i),
        }
    }

    fn variable(&self, _number: u32) -> Val {
        let _frame = self.frame;
        Val::Bool(false)
    }

    fn time(&self) -> Tick {
        self.time
    }
}
