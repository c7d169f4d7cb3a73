//! Runs a process three times, from its first statement on, and prints at which wait it stops, or its refusal, and how many
//! events there are then.
#![tactic(auto)]

ghost use Rattle.std.specs.Prelude.{OnOk};
ghost use Rattle.proc_exec.specs.Running.{StandsReady};
ghost use Rattle.process_rest.specs.Resting.{at_first};
ghost use Rattle.process_cases.specs.Cases.{case_context, case_local};

mod bench;
mod text;

use bench::Bench;
use fix_core::Tick;
use flat_expr::Statement;
use proc_exec::{StatementRoom, run};
use process_control::Wait;
use process_stack::ProcessStack;
use statement_lists::ListFault;
use std::io;
use text::case_text;

const RUNS: usize = 3;

/// The next run.
fn next_run(
    bench: &mut Bench,
    text: &[Statement],
    stack: &mut ProcessStack,
    room: &mut StatementRoom,
) -> Result<Wait, ListFault>
    requires { StandsReady (case_context bench.old.process bench.old.time) (case_local bench.old.variables.items bench.old.elements bench.old.broke bench.old.events) text.now stack.old }
    ensures { OnOk result (StandsReady (case_context bench.new.process bench.new.time) (case_local bench.new.variables.items bench.new.elements bench.new.broke bench.new.events) text.now stack.new) }
{
    run(bench, text, stack, room)
}

fn print_row(rt: &HostRuntime, answer: Result<Wait, ListFault>, events: usize) -> io::Result<()> {
    match answer {
        Ok(wait) => match wait.timeout {
            Some(until) => {
                println!(rt;
                    "wait {} until {} ps, events {events}",
                    wait.number,
                    until.get()
                )
            }
            None => println!(rt; "wait {}, events {events}", wait.number),
        },
        Err(ListFault::Refused(refusal)) => {
            println!(rt; "refusal {}, events {events}", refusal.code)
        }
        Err(ListFault::Memory) => println!(rt; "no memory"),
    }
}

fn print_runs(rt: &HostRuntime, bench: &mut Bench, text: &[Statement]) -> io::Result<()>
    requires { StandsReady (case_context bench.old.process bench.old.time) (case_local bench.old.variables.items bench.old.elements bench.old.broke bench.old.events) text.now at_first }
{
    let mut stack = ProcessStack::new(rt.alloc());
    let mut room = StatementRoom::new(rt.alloc());
    for _run in 0..RUNS {
        let answer = next_run(bench, text, &mut stack, &mut room);
        print_row(rt, answer, bench.events.len())?;
        if answer.is_err() {
            break;
        }
    }
    Ok(())
}

fn main(rt: HostRuntime) -> io::Result<()> {
    let Some(time) = Tick::new(0) else {
        return Ok(());
    };
    let text = case_text(rt.alloc())?;
    let mut bench = Bench::new(rt.alloc(), time);
    print_runs(&rt, &mut bench, text.as_slice())
}
