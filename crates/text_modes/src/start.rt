//! From a text to a well-formed flat design, or to the note of the first refusal.
ghost use Rattle.std.specs.Prelude.{◌≤◌, length};
ghost use Rattle.program_output.specs.Port.{port};
ghost use Rattle.text_modes.specs.Start.{most_bytes, Starts};

use design_reading::{Unread, read_design};
use flat_design::Flat;
use port_io::Sink;
use program_output::{Status, tell};
use std::alloc::Global;
use text_designs::texts_give_designs;

/// The flat design of a top in a text of at most 1,048,576 bytes. A refused text's note is written.
pub fn read_or_refuse<E: Sink>(
    alloc: Global,
    text: &[u8],
    top: &str,
    notes: &mut E,
) -> Result<Flat, Status>
    requires { length text.now ≤ most_bytes }
    ensures { Starts result text.now top.now (port (E.held notes.old) (E.held notes.new) (E.faults notes.old) (E.faults notes.new)) }
{
    texts_give_designs();
    match read_design(alloc, text, top) {
        Ok(flat) => Ok(flat),
        Err(Unread::Refused(note)) => Err(tell(notes, &note, Status::DesignRefused)),
        Err(Unread::Memory) => Err(Status::Memory),
    }
}
