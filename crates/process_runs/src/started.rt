//! The first runs.
ghost use Rattle.std.specs.Prelude.{◌≡◌, ◌<◌, ◌+◌, length, OnOk, IfOk};
ghost use Rattle.cycle_meaning.specs.Cycles.{start_all};
ghost use Rattle.kernel_world.specs.Acting.{context_of, world_of};
ghost use Rattle.process_runs.specs.Kept.{numbered, states_kept, AreUnstarted, CanRun, CanStart};
ghost use Rattle.process_runs.specs.Ran.{AllEnd, NextEnds, started_from};

use crate::kept::KeptProcess;
use crate::one::run_process;
use flat_design::Process;
use kernel_world::World;
use proc_exec::StatementRoom;
use statement_lists::ListFault;
use std::alloc::{AllocError, Global};

/// The processes before their first run.
pub fn unstarted(alloc: Global, processes: &[Process]) -> Result<Vec<KeptProcess>, AllocError>
    ensures { IfOk result (λ all. AreUnstarted processes.now all.items) }
{
    let mut all = Vec::new(alloc);
    for process in processes {
        all.push(KeptProcess::new(alloc, process)?)?;
    }
    Ok(all)
}

/// Runs the process with a number for the first time.
fn start_next(
    world: &mut World,
    processes: &[Process],
    kept: &mut [KeptProcess],
    number: usize,
    room: &mut StatementRoom,
) -> Result<(), ListFault>
    requires there { number < length processes.now }
    requires can { CanStart number (context_of world.old) (world_of world.old) processes.now kept.old }
    ensures next { NextEnds (started_from number (numbered (context_of world.old)) 0 processes.now (states_kept processes.now kept.old) (world_of world.old)) (started_from (number + 1) (numbered (context_of world.old)) 0 processes.now (states_kept processes.now kept.new) (world_of world.new)) (world_of world.new) result }
    ensures can { OnOk result (CanStart (number + 1) (context_of world.new) (world_of world.new) processes.now kept.new) }
    ensures context { numbered (context_of world.new) 0 ≡ numbered (context_of world.old) 0 }
{
    run_process(
        world,
        number as u32,
        &processes[number],
        &mut kept[number],
        room,
    )
}

/// Runs each process once up to its first wait, in order (IEEE 1076, 14.7.5.2). A refusal or want of memory ends the runs.
pub fn start_processes(
    world: &mut World,
    processes: &[Process],
    kept: &mut [KeptProcess],
    room: &mut StatementRoom,
) -> Result<(), ListFault>
    requires { CanStart 0 (context_of world.old) (world_of world.old) processes.now kept.old }
    ensures ran { AllEnd (start_all (numbered (context_of world.old)) 0 processes.now (world_of world.old)) (world_of world.new) (states_kept processes.now kept.new) result }
    ensures can { OnOk result (CanRun (context_of world.new) (world_of world.new) processes.now kept.new) }
    ensures context { numbered (context_of world.new) 0 ≡ numbered (context_of world.old) 0 }
{
    for number in 0..processes.len() {
        match start_next(world, processes, kept, number, room) {
            Ok(()) => {}
            Err(fault) => return Err(fault),
        }
    }
    Ok(())
}
