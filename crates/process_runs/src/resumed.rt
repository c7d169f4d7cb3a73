//! The runs of the processes that resume.
ghost use Rattle.std.specs.Prelude.{◌≡◌, ◌<◌, ◌+◌, length, OnOk};
ghost use Rattle.cycle_meaning.specs.Cycles.{run_all};
ghost use Rattle.kernel_world.specs.Acting.{context_of, world_of};
ghost use Rattle.process_runs.specs.Called.{MarksAreCalled};
ghost use Rattle.process_runs.specs.Kept.{numbered, states_kept, CanRun};
ghost use Rattle.process_runs.specs.Ran.{AllEnd, NextEnds, ran_from};

use crate::kept::KeptProcess;
use crate::one::run_process;
use flat_design::Process;
use kernel_world::World;
use proc_exec::StatementRoom;
use statement_lists::ListFault;

/// Runs the process with a number, if it resumes.
fn run_next(
    world: &mut World,
    processes: &[Process],
    kept: &mut [KeptProcess],
    resumed: &[bool],
    number: usize,
    room: &mut StatementRoom,
) -> Result<(), ListFault>
    requires there { number < length processes.now }
    requires resumed { length resumed.now ≡ length processes.now }
    requires can { CanRun (context_of world.old) (world_of world.old) processes.now kept.old }
    ensures next { NextEnds (ran_from number (numbered (context_of world.old)) 0 processes.now (states_kept processes.now kept.old) resumed.now (world_of world.old)) (ran_from (number + 1) (numbered (context_of world.old)) 0 processes.now (states_kept processes.now kept.new) resumed.now (world_of world.new)) (world_of world.new) result }
    ensures can { OnOk result (CanRun (context_of world.new) (world_of world.new) processes.now kept.new) }
    ensures context { numbered (context_of world.new) 0 ≡ numbered (context_of world.old) 0 }
{
    if resumed[number] {
        run_process(
            world,
            number as u32,
            &processes[number],
            &mut kept[number],
            room,
        )
    } else {
        Ok(())
    }
}

/// Runs the processes that resume in order, each up to its next wait (IEEE 1076, 14.7.5.3, and clauses 10 and 11). Only those that
/// are called are looked at: no other resumes. A refusal or want of memory ends the runs. Memory is taken only where a stack or a
/// list is longer than any before.
pub fn run_called(
    world: &mut World,
    processes: &[Process],
    kept: &mut [KeptProcess],
    resumed: &[bool],
    called: &[u32],
    room: &mut StatementRoom,
) -> Result<(), ListFault>
    requires resumed { length resumed.now ≡ length processes.now }
    requires called { MarksAreCalled (length processes.now) called.now resumed.now }
    requires can { CanRun (context_of world.old) (world_of world.old) processes.now kept.old }
    ensures ran { AllEnd (run_all (numbered (context_of world.old)) 0 processes.now (states_kept processes.now kept.old) resumed.now (world_of world.old)) (world_of world.new) (states_kept processes.now kept.new) result }
    ensures can { OnOk result (CanRun (context_of world.new) (world_of world.new) processes.now kept.new) }
    ensures context { numbered (context_of world.new) 0 ≡ numbered (context_of world.old) 0 }
{
    for number in called {
        match run_next(world, processes, kept, resumed, *number as usize, room) {
            Ok(()) => {}
            Err(fault) => return Err(fault),
        }
    }
    Ok(())
}
