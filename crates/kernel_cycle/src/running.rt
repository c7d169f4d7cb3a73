//! The processes that resume run.
ghost use Rattle.std.specs.Prelude.{◌≡◌, length, map, replicate, false, Ok};
ghost use Rattle.step_model.specs.System.{Digital};
ghost use Rattle.cycle_meaning.specs.Cycles.{ended, first_digital, resumes, run_all};
ghost use Rattle.kernel_world.specs.Acting.{context_of, world_of};
ghost use Rattle.next_cycle.specs.Next.{timeouts_of};
ghost use Rattle.process_runs.specs.Called.{MarksAreCalled};
ghost use Rattle.process_runs.specs.Kept.{numbered, CanRun};
ghost use Rattle.process_callers.specs.Calling.{unless_due};
ghost use Rattle.kernel_state.specs.State.{objects_of, states_of, HasLists};
ghost use Rattle.kernel_cycle.specs.Ending.{CycleEnds};

use cycle_parts::{domain_stays, state_is_left};
use kernel_state::KernelParts;
use process_runs::run_called;
use run_changes::runs_change_drivers_and_breaks_alone;
use statement_lists::ListFault;
use timeout_entry::{enter_called, entered_timeouts_are_of_states};

/// Takes the marks away, which only processes have that were called.
fn unmark(resumed: &mut [bool], called: &[u32])
    requires { MarksAreCalled (length resumed.old) called.now resumed.old }
    ensures { resumed.new ≡ replicate (length resumed.old) false }
{
    for number in called {
        resumed[*number as usize] = false;
    }
}

/// Runs the processes that resume in order, and enters their timeouts. None is marked then.
pub fn run_resumed(parts: &mut KernelParts) -> Result<(), ListFault>
    requires lists { HasLists parts.old }
    requires marks { length parts.old.resumed.items ≡ length (objects_of parts.old).processes }
    requires called { MarksAreCalled (length (objects_of parts.old).processes) parts.old.called.items parts.old.resumed.items }
    requires can { CanRun (context_of parts.old.world) (world_of parts.old.world) (objects_of parts.old).processes parts.old.kept.items }
    requires resume { resumes (numbered (context_of parts.old.world)) (world_of parts.old.world) 0 (objects_of parts.old).processes (states_of parts.old) ≡ Ok parts.old.resumed.items }
    requires timeouts { parts.old.timeouts ≡ map (unless_due (context_of parts.old.world).t) (timeouts_of (states_of parts.old)) }
    ensures ends { (d : Digital) → d.ramps ≡ (first_digital (objects_of parts.old)).ramps → CycleEnds (ended d (context_of parts.old.world).t parts.old.world.timed (run_all (numbered (context_of parts.old.world)) 0 (objects_of parts.old).processes (states_of parts.old) parts.old.resumed.items (world_of parts.old.world))) parts.new result }
    ensures objects { objects_of parts.new ≡ objects_of parts.old }
    ensures own { parts.new.events ≡ parts.old.events }
{
    runs_change_drivers_and_breaks_alone();
    domain_stays();
    state_is_left();
    entered_timeouts_are_of_states();
    let flat = parts.world.flat();
    let processes = flat.processes();
    let kept = parts.kept.as_mut_slice();
    let marks = parts.resumed.as_slice();
    let called = parts.called.as_slice();
    let ran = run_called(
        &mut parts.world,
        processes,
        kept,
        marks,
        called,
        &mut parts.room,
    );
    match ran {
        Ok(()) => {
            let waiting = parts.kept.as_slice();
            let resumed = parts.resumed.as_slice();
            let Ok(()) = enter_called(&mut parts.timeouts, waiting, resumed, called) else {
                return Err(ListFault::Memory);
            };
            let all = parts.resumed.as_mut_slice();
            unmark(all, called);
            Ok(())
        }
        Err(fault) => Err(fault),
    }
}
