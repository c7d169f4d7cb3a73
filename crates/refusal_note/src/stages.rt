//! The notes of each stage.
ghost use Rattle.std.specs.Prelude.{◌≡◌, IfOk, Option, Some, None};
ghost use Rattle.std.specs.List.{slice_get};
ghost use Rattle.elab_meaning.specs.Notes.{code_of, text_of};
ghost use Rattle.refusal_note.specs.Notes.{lex_note, token_place, token_note, parse_note, name_fields, fault_note, limit_name, most_of, refusal_note, unsolvable_note, place_note};

use crate::parts::{counts_note, limit_note, named_note, numbered_note, path_note, place_note};
use ams_lexer::LexFault;
use ams_token::{Names, Place, Tokens};
use elab_meaning::{Cause, Fault};
use fault_order::code_of;
use flat_design::{
    FRAME_LIMIT, Flat, INSTANCE_LIMIT, PROCESS_LIMIT, SIGNAL_LIMIT, THRESHOLD_LIMIT, UNKNOWN_LIMIT,
};
use message_codes::{
    BAD_CHARACTER, BAD_LITERAL, MULTIPLE_DRIVERS, NO_TOP, NOT_ASCII, PORT_MISMATCH, RECURSIVE,
    SYNTAX, TOO_DEEP, TOO_MANY, UNCLOSED_STRING, UNSOLVABLE,
};
use parse_steps::ParseFault;
use std::alloc::{AllocError, Global};
use unit_meaning::{Limit, Refusal};

/// The note of a text that has no tokens; none where memory ran out.
pub fn lex_note(alloc: Global, fault: LexFault) -> Result<Vec<u8>, AllocError>
    ensures { IfOk result (λ note. note.items ≡ lex_note fault) }
{
    match fault {
        LexFault::BadCharacter(place) => place_note(alloc, BAD_CHARACTER, place),
        LexFault::BadLiteral(place) => place_note(alloc, BAD_LITERAL, place),
        LexFault::UnclosedString(place) => place_note(alloc, UNCLOSED_STRING, place),
        LexFault::NotAscii(place) => place_note(alloc, NOT_ASCII, place),
        LexFault::Memory => Ok(Vec::new(alloc)),
    }
}

/// The place of a token, or that of the text's end.
fn token_place(tokens: &Tokens, number: usize) -> Place
    ensures { result ≡ token_place (slice_get tokens.now.list.items number) tokens.now.end }
{
    match tokens.list.get(number) {
        Some(token) => token.place,
        None => tokens.end,
    }
}

fn token_note(
    alloc: Global,
    code: u8,
    tokens: &Tokens,
    number: usize,
) -> Result<Vec<u8>, AllocError>
    ensures { IfOk result (λ note. note.items ≡ token_note code tokens.now number) }
{
    numbered_note(alloc, code, token_place(tokens, number), number as u64)
}

/// The note of tokens that are no design file; none where memory ran out.
pub fn parse_note(alloc: Global, tokens: &Tokens, fault: &ParseFault) -> Result<Vec<u8>, AllocError>
    ensures { IfOk result (λ note. note.items ≡ parse_note tokens.now fault.now) }
{
    match fault {
        ParseFault::Syntax(number) => token_note(alloc, SYNTAX, tokens, *number),
        ParseFault::TooDeep(number) => token_note(alloc, TOO_DEEP, tokens, *number),
        ParseFault::Memory => Ok(Vec::new(alloc)),
    }
}

/// The text of a name by its number.
fn name_text(names: &Names, number: u32) -> &[u8]
    ensures { result.now ≡ text_of names.now number }
{
    if (number as usize) < names.len() {
        names.text(number).as_bytes()
    } else {
        b""
    }
}

/// The note of a broken rule of types or natures.
pub fn fault_note(alloc: Global, names: &Names, fault: &Fault) -> Result<Vec<u8>, AllocError>
    ensures { IfOk result (λ note. note.items ≡ fault_note names.now fault.now) }
{
    let code = code_of(fault.cause);
    match fault.cause {
        Cause::Unknown(name) | Cause::Duplicate(name) => {
            named_note(alloc, code, fault.place, name_text(names, name))
        }
        Cause::WrongType | Cause::NotStatic | Cause::NatureMismatch | Cause::UnequalBranches =>
            place_note(alloc, code, fault.place),
    }
}

fn limit_name(limit: Limit) -> &'static [u8]
    ensures { result.now ≡ limit_name limit }
{
    match limit {
        Limit::Unknowns => b"unknowns",
        Limit::Frame => b"frame",
        Limit::Signals => b"signals",
        Limit::Processes => b"processes",
        Limit::Thresholds => b"thresholds",
        Limit::Instances => b"instances",
    }
}

fn most_of(limit: Limit) -> usize
    ensures { result ≡ most_of limit }
{
    match limit {
        Limit::Unknowns => UNKNOWN_LIMIT,
        Limit::Frame => FRAME_LIMIT,
        Limit::Signals => SIGNAL_LIMIT,
        Limit::Processes => PROCESS_LIMIT,
        Limit::Thresholds => THRESHOLD_LIMIT,
        Limit::Instances => INSTANCE_LIMIT,
    }
}

/// The note of a top that has no flat design.
pub fn flattening_note(
    alloc: Global,
    names: &Names,
    refusal: &Refusal,
) -> Result<Vec<u8>, AllocError>
    ensures { IfOk result (λ note. note.items ≡ refusal_note names.now refusal.now) }
{
    match refusal {
        Refusal::Broken(fault) => fault_note(alloc, names, fault),
        Refusal::NoTop(name) => path_note(alloc, NO_TOP, name.as_slice()),
        Refusal::PortMismatch(path) => path_note(alloc, PORT_MISMATCH, path.as_slice()),
        Refusal::MultipleDrivers(path) => path_note(alloc, MULTIPLE_DRIVERS, path.as_slice()),
        Refusal::Recursive(path) => path_note(alloc, RECURSIVE, path.as_slice()),
        Refusal::TooMany(limit) => {
            limit_note(alloc, TOO_MANY, limit_name(*limit), most_of(*limit) as u64)
        }
    }
}

/// The note of the instance of this number, whose numbers of equations and unknowns differ.
pub fn unsolvable_note(alloc: Global, flat: &Flat, number: usize) -> Result<Vec<u8>, AllocError>
    ensures { IfOk result (λ note. note.items ≡ unsolvable_note flat.now number) }
{
    match flat.instances().get(number) {
        Some(instance) => counts_note(
            alloc,
            UNSOLVABLE,
            instance.path.as_slice(),
            instance.equations,
            instance.unknowns,
        ),
        None => Ok(Vec::new(alloc)),
    }
}
