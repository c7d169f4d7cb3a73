//! What is refused before a text is read as a design.
ghost use Rattle.std.specs.Prelude.{◌≡◌, ◌++◌, decimal, IfOk};
ghost use Rattle.program_output.specs.Port.{port};
ghost use Rattle.program_output.specs.Output.{Tells};
ghost use Rattle.program_output.specs.declared.status.Status.TheVariants as status;
ghost use Rattle.sim_top.specs.Outcome.{usage_note, too_long_note, TellsOrLacks};

use itoa::Buffer;
use port_io::Sink;
use program_output::{Status, tell};
use std::alloc::{AllocError, Global};

/// The greatest length of a text.
pub const MOST_BYTES: usize = 1_048_576;

/// The note of a refused word.
fn usage_note(alloc: Global, number: u32) -> Result<Vec<u8>, AllocError>
    ensures { IfOk result (λ note. note.items ≡ usage_note number) }
{
    let mut buffer = Buffer::new();
    let mut note = Vec::from_slice(alloc, b"usage ")?;
    note.extend_from_slice(buffer.format(number).as_bytes())?;
    note.extend_from_slice(b"\n")?;
    Ok(note)
}

/// The words are refused: the first refused word has this number, from 1, or it is 0.
pub fn refuse_words<E: Sink>(alloc: Global, number: u32, notes: &mut E) -> Status
    ensures { TellsOrLacks (usage_note number) status.WordsRefused result (port (E.held notes.old) (E.held notes.new) (E.faults notes.old) (E.faults notes.new)) }
{
    match usage_note(alloc, number) {
        Ok(note) => tell(notes, &note, Status::WordsRefused),
        Err(_) => Status::Memory,
    }
}

/// The text has too many bytes.
pub fn refuse_length<E: Sink>(notes: &mut E) -> Status
    ensures { Tells too_long_note status.TooLong result (port (E.held notes.old) (E.held notes.new) (E.faults notes.old) (E.faults notes.new)) }
{
    tell(notes, b"error 7\n", Status::TooLong)
}
