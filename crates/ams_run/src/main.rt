//! Simulates the design on standard input, and writes its trace to standard output and its notes to standard error.
#![tactic(auto)]

mod arguments;

use port_io::{StdSink, StdSource};
use sim_top::{Open, Status, simulate};
use std::io::BufWriter;
use std::process::ExitCode;

/// Runs the program on the standard streams. A trace that can't be handed on at its end is a write fault.
fn main(rt: HostRuntime) -> ExitCode {
    let Ok(words) = arguments::words(&rt, rt.alloc()) else {
        return ExitCode::from(Status::Memory.code());
    };
    let Ok(buffer) = BufWriter::with_capacity(rt.alloc(), 65_536, rt.stdout()) else {
        return ExitCode::from(Status::Memory.code());
    };
    let mut source = StdSource::new(rt.stdin());
    let mut trace = StdSink::new(buffer);
    let mut notes = StdSink::new(rt.stderr());
    let status = simulate(
        &rt,
        rt.alloc(),
        &words,
        &mut source,
        &mut trace,
        &mut notes,
        &Open,
    );
    let status = match trace.flush() {
        Ok(()) => status,
        Err(_) => Status::WriteFault,
    };
    ExitCode::from(status.code())
}
