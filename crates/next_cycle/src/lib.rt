//! The time of the next cycle (IEEE 1076, 14.7.5).
#![tactic(auto)]

ghost use Rattle.std.specs.Prelude.{◌≡◌};
ghost use Rattle.step_data.specs.Times.{earliest};
ghost use Rattle.step_model.specs.System.{Digital};
ghost use Rattle.cycle_meaning.specs.Cycles.{next_time};
ghost use Rattle.next_cycle.specs.Next.{timeouts_of, NextIsFirst};

use agenda::Agenda;
use driver_set::DriverSet;
use fix_core::Tick;

/// The earlier of two times.
fn earlier(a: Option<Tick>, b: Option<Tick>) -> Option<Tick>
    ensures { result ≡ earliest a b }
{
    match a {
        Some(first) => match b {
            Some(second) => {
                if first.get() <= second.get() {
                    Some(first)
                } else {
                    Some(second)
                }
            }
            None => Some(first),
        },
        None => b,
    }
}

/// The least time at which a transaction or a timeout stands, without a look at all of them.
#[tactic(auto, using(crate::proofs::Earliest::next_is))]
pub fn next_time(drivers: &DriverSet, timeouts: &Agenda) -> Option<Tick>
    ensures { (d : Digital) → drivers.now ≡ d.queues → timeouts.now ≡ timeouts_of d.processes → result ≡ next_time d }
{
    earlier(drivers.least(), timeouts.least())
}

/// Up to the next time no first transaction and no timeout is earlier. It is proved, and does nothing when it runs.
#[tactic(auto, using(crate::proofs::Earliest::next_is_first))]
pub fn next_is_first()
    ensures { NextIsFirst }
{}
