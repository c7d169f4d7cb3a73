//! From a text to its trace.
ghost use Rattle.step_data.specs.Options.{IsAllowed};
ghost use Rattle.design_rules.specs.Design.{IsDesign};

use design_modes::run_design;
use design_reading::{Unread, read_design};
use flat_design::Flat;
use ladder::ladder_text;
use port_io::MemSink;
use program_words::Settings;
use std::alloc::Global;
use std::io;
use text_designs::texts_give_designs;
use trace_sink::TraceFault;
use word_rules::Mode;

/// The most bytes of a text.
const MOST_BYTES: usize = 1_048_576;

fn print_bytes(rt: &impl Print, bytes: &[u8]) -> io::Result<()> {
    match str::from_utf8(bytes) {
        Ok(text) => print!(rt; "{text}"),
        Err(_) => println!(rt; "no text"),
    }
}

/// Runs a flat design, and prints its trace. A sink in memory fails where there is no memory for a piece.
fn run_flat(rt: &impl Print, alloc: Global, flat: &Flat, settings: &Settings) -> io::Result<()>
    requires design { IsDesign flat.now }
    requires allowed { IsAllowed settings.now.options }
{
    let mut trace = MemSink::new(alloc, Vec::new(alloc));
    match run_design(alloc, flat, &settings.top, &settings.options, &mut trace) {
        Ok(_) => print_bytes(rt, trace.bytes()),
        Err(TraceFault::Memory) => println!(rt; "no memory for the run"),
        Err(TraceFault::WriteFault) => println!(rt; "no memory for the trace"),
    }
}

fn read_and_run(rt: &impl Print, alloc: Global, text: &[u8], settings: &Settings) -> io::Result<()>
    requires allowed { IsAllowed settings.now.options }
{
    if text.len() > MOST_BYTES {
        return println!(rt; "too long");
    }
    texts_give_designs();
    match read_design(alloc, text, settings.top.as_str()) {
        Ok(flat) => run_flat(rt, alloc, &flat, settings),
        Err(Unread::Refused(note)) => print_bytes(rt, note.as_slice()),
        Err(Unread::Memory) => println!(rt; "no memory for the design"),
    }
}

/// Runs the top of a text, or of the generated ladder, and prints its trace or the note of its refusal.
pub fn run_text(rt: &impl Print, alloc: Global, text: &[u8], settings: &Settings) -> io::Result<()>
    requires allowed { IsAllowed settings.now.options }
{
    match settings.mode {
        Mode::Make => match ladder_text(alloc, settings.size) {
            Ok(made) => read_and_run(rt, alloc, made.as_bytes(), settings),
            Err(_) => println!(rt; "no memory for the ladder"),
        },
        _ => read_and_run(rt, alloc, text, settings),
    }
}
