//! A cycle that began goes on.
ghost use Rattle.std.specs.Prelude.{◌≡◌};
ghost use Rattle.step_model.specs.System.{Digital};
ghost use Rattle.cycle_meaning.specs.Cycles.{first_digital};
ghost use Rattle.kernel_world.specs.Acting.{context_of, world_of};
ghost use Rattle.next_cycle.specs.Next.{timeouts_of, NoneIsEarlier};
ghost use Rattle.process_runs.specs.Kept.{CanRun};
ghost use Rattle.process_callers.specs.Calling.{AreEvents};
ghost use Rattle.kernel_state.specs.State.{objects_of, states_of, IsBuilt};
ghost use Rattle.kernel_cycle.specs.Ending.{CycleEnds, begun_outcome};

use crate::finding::find_resumed;
use crate::running::run_resumed;
use cycle_parts::events_are_only_added;
use fix_core::Tick;
use kernel_state::KernelParts;
use run_events::runs_do_not_read_events;
use statement_lists::ListFault;

/// Finds which processes resume in the world of a cycle that began, and runs them.
pub fn go_on(parts: &mut KernelParts, now: Tick) -> Result<(), ListFault>
    requires moment { (context_of parts.old.world).t ≡ now }
    requires built { IsBuilt parts.old }
    requires can { CanRun (context_of parts.old.world) (world_of parts.old.world) (objects_of parts.old).processes parts.old.kept.items }
    requires timeouts { parts.old.timeouts ≡ timeouts_of (states_of parts.old) }
    requires early { NoneIsEarlier now parts.old.timeouts }
    requires events { AreEvents parts.old.callers (world_of parts.old.world) now (context_of parts.old.world).n (world_of parts.old.world).events }
    ensures ends { (d : Digital) → d.ramps ≡ (first_digital (objects_of parts.old)).ramps → d.processes ≡ states_of parts.old → CycleEnds (begun_outcome d parts.old) parts.new result }
    ensures objects { objects_of parts.new ≡ objects_of parts.old }
    ensures own { parts.new.events ≡ parts.old.events }
{
    runs_do_not_read_events();
    events_are_only_added();
    match find_resumed(parts, now) {
        Ok(()) => run_resumed(parts),
        Err(fault) => Err(fault),
    }
}
