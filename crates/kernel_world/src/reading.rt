//! Values of signals, unknowns and variables by their numbers.
ghost use Rattle.std.specs.Prelude.{◌≡◌, pos, false, slice_index_or};
ghost use Rattle.std.specs.List.{slice_get};
ghost use Rattle.design_meaning.specs.Readings.{still};
ghost use Rattle.cycle_meaning.specs.Statements.{constraint_of};
ghost use Rattle.kernel_world.specs.Reading.{seens, unknown_in, domain_value};

use ams_value::Val;
use fix_core::Fix;
use flat_design::{Flat, Signal};
use flat_expr::{Constraint, Unknown};
use signal_store::SignalStore;
use step_data::Point;

/// The value of a signal, FALSE at a number that none has.
#[tactic(auto, using(crate::proofs::Seen::value_found, crate::proofs::Seen::value_missing))]
pub fn signal_value(signals: &SignalStore, i: u32) -> Val
    ensures { result ≡ (slice_index_or (seens signals.now.values signals.now.events) i (still (Val.Bool false))).value }
{
    if (i as usize) < signals.len() {
        signals.get(i)
    } else {
        Val::Bool(false)
    }
}

/// Whether a signal had an event in this cycle.
#[tactic(auto, using(crate::proofs::Seen::event_found, crate::proofs::Seen::event_missing))]
pub fn signal_event(signals: &SignalStore, i: u32) -> bool
    ensures { result ≡ (slice_index_or (seens signals.now.values signals.now.events) i (still (Val.Bool false))).event }
{
    if (i as usize) < signals.len() {
        signals.had_event(i)
    } else {
        false
    }
}

pub fn domain_value(timed: bool) -> Val
    ensures { result ≡ domain_value timed }
{
    if timed {
        Val::Enum(0, 1)
    } else {
        Val::Enum(0, 0)
    }
}

/// The number at a place, 0 where there is none.
fn number_at(numbers: &[Fix], place: usize) -> Fix
    ensures { result ≡ slice_index_or numbers.now place (pos 0) }
{
    match numbers.get(place) {
        Some(number) => *number,
        None => Fix::exactly(0),
    }
}

/// The value of an unknown at a point, 0 where there is none of this number.
pub fn unknown_at(flat: &Flat, point: &Point, unknown: Unknown) -> Fix
    ensures { result ≡ unknown_in flat.now point.now unknown }
{
    let is_there = match unknown {
        Unknown::Quantity(i) => (i as usize) < flat.quantities().len(),
        Unknown::Reference(i) => (i as usize) < flat.nodes().len(),
        Unknown::Dot(_) => true,
    };
    if is_there {
        number_at(point.as_slice(), flat.number_of(unknown))
    } else {
        Fix::exactly(0)
    }
}

/// The value of a variable, FALSE at a number that none has.
pub fn variable_at(variables: &[Val], number: u32) -> Val
    ensures { result ≡ slice_index_or variables.now number (Val.Bool false) }
{
    match variables.get(number as usize) {
        Some(value) => *value,
        None => Val::Bool(false),
    }
}

/// The declared subtype of a signal.
pub fn constraint_at(signals: &[Signal], i: u32) -> Constraint
    ensures { result ≡ constraint_of (slice_get signals.now i) }
{
    match signals.get(i as usize) {
        Some(signal) => signal.constraint,
        None => Constraint::Whole,
    }
}
