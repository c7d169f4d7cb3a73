//! The parts of a note.
ghost use Rattle.std.specs.Prelude.{◌≡◌, ◌++◌, [], ◌∷◌, codes, decimal, OnOk, IfOk};
ghost use Rattle.refusal_note.specs.Notes.{error_note, place_fields, place_note, path_note};
ghost use Rattle.refusal_note.specs.Fields.{fields_text};

use ams_token::Place;
use itoa::Buffer;
use std::alloc::{AllocError, Global};

/// A number behind a space.
fn push_number(note: &mut Vec<u8>, number: u64) -> Result<(), AllocError>
    ensures { OnOk result (note.new.items ≡ note.old.items ++ fields_text (decimal number ∷ [])) }
{
    let mut buffer = Buffer::new();
    note.extend_from_slice(b" ")?;
    note.extend_from_slice(buffer.format(number).as_bytes())
}

/// A word behind a space.
fn push_word(note: &mut Vec<u8>, word: &[u8]) -> Result<(), AllocError>
    ensures { OnOk result (note.new.items ≡ note.old.items ++ fields_text (word.now ∷ [])) }
{
    note.extend_from_slice(b" ")?;
    note.extend_from_slice(word)
}

/// A note up to the number of its message.
fn note_of(alloc: Global, code: u8) -> Result<Vec<u8>, AllocError>
    ensures { IfOk result (λ note. note.items ≡ codes "error" ++ fields_text (decimal code ∷ [])) }
{
    let mut note = Vec::from_slice(alloc, b"error")?;
    push_number(&mut note, u64::from(code))?;
    Ok(note)
}

/// A note up to a place.
fn note_at(alloc: Global, code: u8, place: Place) -> Result<Vec<u8>, AllocError>
    ensures { IfOk result (λ note. note.items ≡ codes "error" ++ fields_text (decimal code ∷ place_fields place)) }
{
    let mut note = note_of(alloc, code)?;
    push_number(&mut note, u64::from(place.line))?;
    push_number(&mut note, u64::from(place.column))?;
    Ok(note)
}

/// A note with a place.
pub fn place_note(alloc: Global, code: u8, place: Place) -> Result<Vec<u8>, AllocError>
    ensures { IfOk result (λ note. note.items ≡ place_note code place) }
{
    let mut note = note_at(alloc, code, place)?;
    note.push(b'\n')?;
    Ok(note)
}

/// A note with a place and a number.
pub fn numbered_note(
    alloc: Global,
    code: u8,
    place: Place,
    number: u64,
) -> Result<Vec<u8>, AllocError>
    ensures { IfOk result (λ note. note.items ≡ error_note code (place_fields place ++ decimal number ∷ [])) }
{
    let mut note = note_at(alloc, code, place)?;
    push_number(&mut note, number)?;
    note.push(b'\n')?;
    Ok(note)
}

/// A note with a place and a name.
pub fn named_note(alloc: Global, code: u8, place: Place, name: &[u8]) -> Result<Vec<u8>, AllocError>
    ensures { IfOk result (λ note. note.items ≡ error_note code (place_fields place ++ name.now ∷ [])) }
{
    let mut note = note_at(alloc, code, place)?;
    push_word(&mut note, name)?;
    note.push(b'\n')?;
    Ok(note)
}

/// A note with a name or a path.
pub fn path_note(alloc: Global, code: u8, path: &[u8]) -> Result<Vec<u8>, AllocError>
    ensures { IfOk result (λ note. note.items ≡ path_note code path.now) }
{
    let mut note = note_of(alloc, code)?;
    push_word(&mut note, path)?;
    note.push(b'\n')?;
    Ok(note)
}

/// A note with a word and a number.
pub fn limit_note(alloc: Global, code: u8, word: &[u8], most: u64) -> Result<Vec<u8>, AllocError>
    ensures { IfOk result (λ note. note.items ≡ error_note code (word.now ∷ decimal most ∷ [])) }
{
    let mut note = note_of(alloc, code)?;
    push_word(&mut note, word)?;
    push_number(&mut note, most)?;
    note.push(b'\n')?;
    Ok(note)
}

/// A note with a path and two numbers.
pub fn counts_note(
    alloc: Global,
    code: u8,
    path: &[u8],
    equations: u32,
    unknowns: u32,
) -> Result<Vec<u8>, AllocError>
    ensures { IfOk result (λ note. note.items ≡ error_note code (path.now ∷ decimal equations ∷ decimal unknowns ∷ [])) }
{
    let mut note = note_of(alloc, code)?;
    push_word(&mut note, path)?;
    push_number(&mut note, u64::from(equations))?;
    push_number(&mut note, u64::from(unknowns))?;
    note.push(b'\n')?;
    Ok(note)
}
