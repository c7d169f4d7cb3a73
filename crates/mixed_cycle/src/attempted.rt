//! What an attempt that is used leaves at a place.

ghost use Rattle.std.specs.Prelude.{◌≡◌, ◌<◌, ◌≤◌, ◌^◌, ◌++◌, true, false, max, length, OnOk, OnErr};
ghost use Rattle.step_model.specs.Kernel.{AddsFront};
ghost use Rattle.run_place.specs.Giving.{bound_at};
ghost use Rattle.mixed_cycle.specs.Using.{gives_at, crosses_at, crossing_left, passed_left, passed_events, used_left, used_events};

use above_events::differs;
use fix_core::Tick;
use run_place::{Reached, RunPlace, go_on};
use std::alloc::{AllocError, Global};
use step_data::{Attempt, Choices, EventList, Kind, ThresholdList, Tip};

/// It is an accepted point after the time.
pub(crate) fn gives_point(time: Tick, made: &Attempt) -> bool
    ensures { result ≡ gives_at time made.now }
{
    matches!(made.kind, Kind::Accepted) && time < made.end
}

/// A threshold differs at the point that it gives.
pub(crate) fn crosses(gives: bool, made: &Attempt, thresholds: &ThresholdList) -> bool
    ensures { result ≡ crosses_at gives made.now thresholds.now }
{
    gives && differs(&made.x, thresholds)
}

/// A crossing is searched up to its end.
fn cross(
    place: &mut RunPlace,
    made: &Attempt,
    xres: u64,
    alloc: Global,
    out: &mut EventList,
    is_chosen: bool,
    branches: &Choices,
) -> Result<(), AllocError>
    requires order { max place.old.time place.old.tip.t < made.now.end }
    requires distance { 1 ≤ xres }
    requires room { length place.old.at_hi ≡ length made.now.x }
    requires few { length branches.now < 2 ^ 32 }
    requires lengths { length place.old.branches ≡ length branches.now }
    ensures place { OnOk result (place.new ≡ crossing_left made.now xres place.old) }
    ensures ok { OnOk result (out.new ≡ out.old ++ bound_at (crossing_left made.now xres place.old) is_chosen branches.now) }
    ensures err { OnErr result (AddsFront out.old out.new (bound_at (crossing_left made.now xres place.old) is_chosen branches.now)) }
{
    place.at_hi.copy_from(&made.x);
    place.cross(made.end, xres);
    place.give_near(alloc, out, is_chosen, branches)
}

/// The tip goes on behind one that is no crossing, or the run ends; the tip before is kept.
fn pass(
    place: &mut RunPlace,
    before: &mut Tip,
    made: &Attempt,
    gives: bool,
    alloc: Global,
    out: &mut EventList,
    is_chosen: bool,
    branches: &Choices,
) -> Result<(), AllocError>
    requires before { length before.old.x ≡ length place.old.tip.x }
    requires room { length made.now.x ≡ length place.old.tip.x }
    requires few { length branches.now < 2 ^ 32 }
    requires lengths { length place.old.branches ≡ length branches.now }
    ensures place { OnOk result (place.new ≡ passed_left gives made.now is_chosen branches.now place.old) }
    ensures before { OnOk result (before.new ≡ place.old.tip) }
    ensures ok { OnOk result (out.new ≡ out.old ++ passed_events gives made.now is_chosen branches.now place.old) }
    ensures err { OnErr result (AddsFront out.old out.new (passed_events gives made.now is_chosen branches.now place.old)) }
{
    if gives {
        let at = Reached { t: made.end, n: 0 };
        place.give_point(alloc, out, &at, &made.x, is_chosen, branches)?;
        place.choose(is_chosen, branches);
    }
    go_on(before, &mut place.tip, made);
    if matches!(made.kind, Kind::Failed) {
        place.end_small(made.end, made.cause.code);
    }
    Ok(())
}

/// An attempt is used: a crossing, or one behind which the tip goes on.
pub(crate) fn take(
    place: &mut RunPlace,
    before: &mut Tip,
    made: &Attempt,
    is_crossing: bool,
    gives: bool,
    xres: u64,
    alloc: Global,
    out: &mut EventList,
    is_chosen: bool,
    branches: &Choices,
) -> Result<(), AllocError>
    requires order { is_crossing ≡ true → max place.old.time place.old.tip.t < made.now.end }
    requires distance { 1 ≤ xres }
    requires before { length before.old.x ≡ length place.old.tip.x }
    requires room { length made.now.x ≡ length place.old.tip.x }
    requires bound { length place.old.at_hi ≡ length made.now.x }
    requires few { length branches.now < 2 ^ 32 }
    requires lengths { length place.old.branches ≡ length branches.now }
    ensures place { OnOk result (place.new ≡ used_left is_crossing gives made.now xres is_chosen branches.now place.old) }
    ensures crossed { OnOk result (is_crossing ≡ true → before.new ≡ before.old) }
    ensures passed { OnOk result (is_crossing ≡ false → before.new ≡ place.old.tip) }
    ensures ok { OnOk result (out.new ≡ out.old ++ used_events is_crossing gives made.now xres is_chosen branches.now place.old) }
    ensures err { OnErr result (AddsFront out.old out.new (used_events is_crossing gives made.now xres is_chosen branches.now place.old)) }
{
    if is_crossing {
        cross(place, made, xres, alloc, out, is_chosen, branches)
    } else {
        pass(place, before, made, gives, alloc, out, is_chosen, branches)
    }
}
