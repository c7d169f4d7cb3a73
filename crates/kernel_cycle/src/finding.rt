//! Which processes resume in a cycle that began.
ghost use Rattle.std.specs.Prelude.{◌≡◌, length, map, OnOk};
ghost use Rattle.cycle_meaning.specs.Cycles.{resumes};
ghost use Rattle.kernel_world.specs.Acting.{context_of, local_of, world_of};
ghost use Rattle.next_cycle.specs.Next.{timeouts_of, NoneIsEarlier};
ghost use Rattle.process_runs.specs.Called.{MarksAreCalled};
ghost use Rattle.process_runs.specs.Kept.{numbered, CanRun};
ghost use Rattle.process_callers.specs.Calling.{unless_due, AreEvents};
ghost use Rattle.kernel_state.specs.State.{objects_of, states_of, IsBuilt};
ghost use Rattle.kernel_cycle.specs.Ending.{FindEnds};

use crate::calling::call_processes;
use crate::looking::look;
use fix_core::Tick;
use kernel_state::KernelParts;
use statement_lists::ListFault;

/// Finds which processes resume, of those that are called, and marks them. The timeouts that are due are taken out.
pub fn find_resumed(parts: &mut KernelParts, now: Tick) -> Result<(), ListFault>
    requires moment { (context_of parts.old.world).t ≡ now }
    requires built { IsBuilt parts.old }
    requires can { CanRun (context_of parts.old.world) (world_of parts.old.world) (objects_of parts.old).processes parts.old.kept.items }
    requires timeouts { parts.old.timeouts ≡ timeouts_of (states_of parts.old) }
    requires early { NoneIsEarlier now parts.old.timeouts }
    requires events { AreEvents parts.old.callers (world_of parts.old.world) now (context_of parts.old.world).n (world_of parts.old.world).events }
    ensures found { FindEnds (resumes (numbered (context_of parts.old.world)) (world_of parts.old.world) 0 (objects_of parts.old).processes (states_of parts.old)) parts.new.resumed.items (parts.new.timeouts ≡ map (unless_due now) parts.old.timeouts) result }
    ensures called { OnOk result (MarksAreCalled (length (objects_of parts.new).processes) parts.new.called.items parts.new.resumed.items) }
    ensures count { length parts.new.resumed.items ≡ length parts.old.resumed.items }
    ensures context { context_of parts.new.world ≡ context_of parts.old.world }
    ensures local { local_of parts.new.world ≡ local_of parts.old.world }
    ensures events { parts.new.events ≡ parts.old.events }
    ensures kept { parts.new.kept ≡ parts.old.kept }
    ensures waits { parts.new.waits ≡ parts.old.waits }
    ensures callers { parts.new.callers ≡ parts.old.callers }
{
    let Ok(()) = call_processes(
        &mut parts.world,
        &mut parts.events,
        &parts.callers,
        &mut parts.timeouts,
        &mut parts.called,
        now,
    ) else {
        return Err(ListFault::Memory);
    };
    let kept = parts.kept.as_slice();
    let called = parts.called.as_slice();
    let resumed = parts.resumed.as_mut_slice();
    let looked = look(
        &parts.world,
        &parts.waits,
        kept,
        &parts.callers,
        called,
        resumed,
    );
    match looked {
        Ok(()) => Ok(()),
        Err(refusal) => Err(ListFault::Refused(refusal)),
    }
}
