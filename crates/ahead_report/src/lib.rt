//! The report of a run whose attempts are saved ahead: its numbers, and the note that tells them.
#![tactic(auto, using(crate::proofs::NoteRules::note_rules))]

ghost use Rattle.std.specs.Prelude.{◌≡◌, ◌++◌, OnOk, IfOk};
ghost use Rattle.ahead_report.specs.Note.{count_text, report_note};

use itoa::Buffer;
use std::alloc::{AllocError, Global};
use timeline::Counts;

/// How often the timeline gave each reply, and how many attempts the engine made itself.
#[derive(Clone, Copy, Debug, PartialEq, Eq)]
pub struct Report {
    pub counts: Counts,
    pub own: u64,
}

/// A word and a number, each behind a space.
fn push_count(note: &mut Vec<u8>, word: &[u8], number: u64) -> Result<(), AllocError>
    ensures { OnOk result (note.new.items ≡ note.old.items ++ count_text word.now number) }
{
    let mut buffer = Buffer::new();
    note.extend_from_slice(b" ")?;
    note.extend_from_slice(word)?;
    note.extend_from_slice(b" ")?;
    note.extend_from_slice(buffer.format(number).as_bytes())
}

/// The note of a report: one line.
pub fn report_note(alloc: Global, report: &Report) -> Result<Vec<u8>, AllocError>
    ensures { IfOk result (λ note. note.items ≡ report_note report.now) }
{
    let counts = &report.counts;
    let mut note = Vec::from_slice(alloc, b"ahead")?;
    push_count(&mut note, b"begins", counts.begins)?;
    push_count(&mut note, b"taken", counts.taken)?;
    push_count(&mut note, b"saved", counts.saved)?;
    push_count(&mut note, b"stale", counts.stale)?;
    push_count(&mut note, b"reused", counts.reused)?;
    push_count(&mut note, b"own", report.own)?;
    note.push(b'\n')?;
    Ok(note)
}
