//! The run of one process.
ghost use Rattle.std.specs.Prelude.{◌≡◌, Some};
ghost use Rattle.std.specs.List.{slice_get};
ghost use Rattle.cycle_meaning.specs.Processes.{statement_budget};
ghost use Rattle.process_place.specs.Moves.{run_at};
ghost use Rattle.proc_exec.specs.Running.{StandsReady};
ghost use Rattle.kernel_world.specs.Acting.{context_of, world_of};
ghost use Rattle.process_runs.specs.Kept.{place_kept, with_own, numbered};
ghost use Rattle.process_runs.specs.Ran.{RunEnds};

use crate::kept::KeptProcess;
use flat_design::Process;
use kernel_world::World;
use proc_exec::{StatementRoom, run};
use statement_lists::ListFault;

/// Runs a process from where it stands to its next wait.
pub(crate) fn run_process(
    world: &mut World,
    number: u32,
    process: &Process,
    kept: &mut KeptProcess,
    room: &mut StatementRoom,
) -> Result<(), ListFault>
    requires there { slice_get (context_of world.old).objects.processes number ≡ Some process.now }
    requires ready { StandsReady (numbered (context_of world.old) number) (with_own (world_of world.old) kept.old) process.now.statements kept.old.stack }
    ensures ends { RunEnds (numbered (context_of world.old) number) process.now kept.new (world_of world.new) (run_at statement_budget (numbered (context_of world.old) number) process.now.statements (with_own (world_of world.old) kept.old) (place_kept process.now kept.old)) result }
    ensures context { context_of world.new ≡ numbered (context_of world.old) number }
{
    world.turn_to(number, &mut kept.variables);
    let outcome = run(world, process.statements.as_slice(), &mut kept.stack, room);
    world.turn_to(number, &mut kept.variables);
    match outcome {
        Ok(wait) => {
            kept.rest(process, wait);
            Ok(())
        }
        Err(fault) => Err(fault),
    }
}
