//! The start.
ghost use Rattle.std.specs.Prelude.{◌≡◌, ℕ, length};
ghost use Rattle.flat_design.specs.Order.{unknown_count};
ghost use Rattle.cycle_meaning.specs.Cycles.{context_at, first_world, start};
ghost use Rattle.design_rules.specs.Design.{IsDesign};
ghost use Rattle.process_rest.specs.Resting.{IsWorld};
ghost use Rattle.process_runs.specs.Kept.{AreUnstarted};
ghost use Rattle.kernel_world.specs.Acting.{context_of, world_of};
ghost use Rattle.kernel_state.specs.State.{objects_of, IsBuilt};
ghost use Rattle.kernel_cycle.specs.Ending.{CycleEnds};

use cycle_parts::state_is_left;
use kernel_state::KernelParts;
use process_runs::start_processes;
use run_changes::runs_change_drivers_and_breaks_alone;
use statement_lists::ListFault;
use step_data::Point;
use timeout_entry::{enter_all, entered_timeouts_are_of_states};

/// The start (IEEE 1076, 14.7.5.2): each process runs once up to its first wait, at time 0. The events stay in the world. After a
/// refusal or want of memory the parts are of no use any more.
pub fn start(parts: &mut KernelParts, x: &Point) -> Result<(), ListFault>
    requires design { IsDesign (objects_of parts.old) }
    requires built { IsBuilt parts.old }
    requires context { (context_of parts.old.world).t ≡ 0 }
    requires delta { (context_of parts.old.world).n ≡ 0 }
    requires world { world_of parts.old.world ≡ first_world (objects_of parts.old) }
    requires kept { AreUnstarted (objects_of parts.old).processes parts.old.kept.items }
    requires timeouts { length parts.old.timeouts ≡ length (objects_of parts.old).processes }
    requires point { length x.now ≡ unknown_count (objects_of parts.old) }
    requires typed { (k : ℕ) → IsWorld (context_at (objects_of parts.old) 0 0 x.now k) (first_world (objects_of parts.old)) }
    ensures ends { CycleEnds (start (objects_of parts.old) x.now) parts.new result }
    ensures objects { objects_of parts.new ≡ objects_of parts.old }
    ensures own { parts.new.events ≡ parts.old.events }
{
    runs_change_drivers_and_breaks_alone();
    state_is_left();
    entered_timeouts_are_of_states();
    parts.world.take_point(x);
    let flat = parts.world.flat();
    let processes = flat.processes();
    let kept = parts.kept.as_mut_slice();
    let ran = start_processes(&mut parts.world, processes, kept, &mut parts.room);
    match ran {
        Ok(()) => {
            let waiting = parts.kept.as_slice();
            let Ok(()) = enter_all(&mut parts.timeouts, waiting) else {
                return Err(ListFault::Memory);
            };
            Ok(())
        }
        Err(fault) => Err(fault),
    }
}
