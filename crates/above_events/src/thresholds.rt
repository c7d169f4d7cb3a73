ghost use Rattle.std.specs.Prelude.{◌≡◌, pos, slice_index_or};
ghost use Rattle.std.specs.List.{list_any};
ghost use Rattle.lockstep_model.specs.Crossing.{differs as differs_of};
ghost use Rattle.above_events.specs.Locating.{is_unlike};

use fix_core::Fix;
use step_data::{Point, ThresholdList, ThresholdState};

/// The value of an unknown, and 0 for one that isn't there.
fn value_of(x: &Point, unknown: u32) -> Fix
    ensures { result ≡ slice_index_or x.now unknown (pos 0) }
{
    match x.as_slice().get(unknown as usize) {
        Some(value) => *value,
        None => Fix::exactly(0),
    }
}

/// At the point the threshold is unlike its kept value.
fn is_unlike(x: &Point, threshold: ThresholdState) -> bool
    ensures { result ≡ is_unlike x.now threshold }
{
    let is_above = value_of(x, threshold.unknown) > threshold.level;
    is_above != threshold.on
}

/// At the point one of these is.
fn some_unlike(x: &Point, thresholds: &[ThresholdState]) -> bool
    ensures { result ≡ list_any (is_unlike x.now) thresholds.now }
{
    thresholds.iter().any(|threshold| is_unlike(x, *threshold))
}

/// At the point some threshold is unlike its kept value.
pub fn differs(x: &Point, thresholds: &ThresholdList) -> bool
    ensures { result ≡ differs_of x.now thresholds.now }
{
    some_unlike(x, thresholds.as_slice())
}
