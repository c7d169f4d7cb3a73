//! Lines handed to a sink one after another, each as a piece of its own.
#![tactic(auto)]

ghost use Rattle.std.specs.Prelude.{map, vec_items};
ghost use Rattle.trace_sink.specs.Puts.{Puts, PutsLine};

use port_io::{Sink, write_piece};
use std::alloc::{AllocError, AllocFailed};

/// Why a trace isn't written to its end.
#[derive(Clone, Copy, Debug, PartialEq, Eq)]
pub enum TraceFault {
    WriteFault,
    Memory,
}

impl From<AllocError> for TraceFault {
    ghost use Rattle.std.specs.Prelude.{◌≡◌};
    ghost use Rattle.trace_sink.specs.declared.TraceFault.TheVariants.{Memory};

    ghost from_gives = { λ _ e. e ≡ Memory };

    fn from(_: AllocError) -> TraceFault {
        TraceFault::Memory
    }
}

impl<T: Drop> From<AllocFailed<T>> for TraceFault {
    ghost use Rattle.std.specs.Prelude.{◌≡◌};
    ghost use Rattle.trace_sink.specs.declared.TraceFault.TheVariants.{Memory};

    ghost from_gives = { λ _ e. e ≡ Memory };

    fn from(_: AllocFailed<T>) -> TraceFault {
        TraceFault::Memory
    }
}

/// Writes a line.
pub fn put_line<K: Sink>(sink: &mut K, line: &[u8]) -> Result<(), TraceFault>
    ensures { PutsLine result line.now (K.held sink.old) (K.held sink.new) (K.faults sink.old) (K.faults sink.new) }
{
    match write_piece(sink, line) {
        Ok(()) => Ok(()),
        Err(_) => Err(TraceFault::WriteFault),
    }
}

/// Writes lines in order.
pub fn put_lines<K: Sink>(sink: &mut K, lines: &[Vec<u8>]) -> Result<(), TraceFault>
    ensures { Puts result (map vec_items lines.now) (K.held sink.old) (K.held sink.new) (K.faults sink.old) (K.faults sink.new) }
{
    for line in lines {
        match put_line(sink, line) {
            Ok(()) => {}
            Err(fault) => return Err(fault),
        }
    }
    Ok(())
}
