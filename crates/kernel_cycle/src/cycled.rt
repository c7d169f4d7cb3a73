//! One cycle.
ghost use Rattle.std.specs.Prelude.{◌≡◌, ◌≤◌, [], ℕ, length, IfSome};
ghost use Rattle.flat_design.specs.Order.{unknown_count};
ghost use Rattle.cycle_meaning.specs.Cycles.{context_at, next_time, cycle, world_of as begun_world};
ghost use Rattle.process_rest.specs.Resting.{IsWorld};
ghost use Rattle.kernel_world.specs.Acting.{world_of};
ghost use Rattle.kernel_state.specs.State.{objects_of, state_of, IsGoing};
ghost use Rattle.kernel_cycle.specs.Ending.{CycleEnds};

use crate::going::go_on;
use cycle_parts::events_are_only_added;
use fix_core::Tick;
use kernel_state::KernelParts;
use next_cycle::next_is_first;
use run_events::runs_do_not_read_events;
use statement_lists::ListFault;
use step_data::Point;

/// The cycle at a time and a delta (IEEE 1076, 14.7.5): signals and thresholds take their values, processes resume and run in order,
/// each up to its next wait. The events stay in the world. After a refusal or want of memory the parts are of no use any more.
/// Memory is taken only where a list is longer than any before.
pub fn cycle(
    parts: &mut KernelParts,
    t: Tick,
    n: u32,
    x: &Point,
    to_time: bool,
) -> Result<(), ListFault>
    requires going { IsGoing parts.old }
    requires events { (world_of parts.old.world).events ≡ [] }
    requires next { IfSome (next_time (state_of parts.old)) (λ u. t ≤ u) }
    requires point { length x.now ≡ unknown_count (objects_of parts.old) }
    requires world { (k : ℕ) → IsWorld (context_at (objects_of parts.old) t n x.now k) (begun_world (objects_of parts.old) (state_of parts.old) t n x.now to_time) }
    ensures ends { CycleEnds (cycle (objects_of parts.old) (state_of parts.old) t n x.now to_time) parts.new result }
    ensures objects { objects_of parts.new ≡ objects_of parts.old }
    ensures own { parts.new.events ≡ parts.old.events }
{
    next_is_first();
    runs_do_not_read_events();
    events_are_only_added();
    let Ok(()) = parts.world.begin(t, n, x, to_time) else {
        return Err(ListFault::Memory);
    };
    go_on(parts, t)
}
