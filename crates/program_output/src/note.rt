ghost use Rattle.program_output.specs.Port.{port};
ghost use Rattle.program_output.specs.Output.{Tells};

use crate::status::Status;
use port_io::{Sink, write_piece};

/// Writes a note, and answers the status that it goes with.
pub fn tell<E: Sink>(notes: &mut E, note: &[u8], status: Status) -> Status
    ensures { Tells note.now status result (port (E.held notes.old) (E.held notes.new) (E.faults notes.old) (E.faults notes.new)) }
{
    match write_piece(notes, note) {
        Ok(()) => status,
        Err(_) => Status::WriteFault,
    }
}
