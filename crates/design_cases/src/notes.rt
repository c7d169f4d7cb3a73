//! The notes of refused designs.

use ams_lexer::LexFault;
use ams_token::{Names, Place, Tokens};
use elab_meaning::{Cause, Fault};
use expr_types::text_of;
use fault_order::code_of;
use flat_design::{
    FRAME_LIMIT, Flat, INSTANCE_LIMIT, PROCESS_LIMIT, SIGNAL_LIMIT, THRESHOLD_LIMIT, UNKNOWN_LIMIT,
};
use message_codes::{
    BAD_CHARACTER, BAD_LITERAL, MULTIPLE_DRIVERS, NO_TOP, NOT_ASCII, PORT_MISMATCH, RECURSIVE,
    SYNTAX, TOO_DEEP, TOO_MANY, UNCLOSED_STRING, UNSOLVABLE,
};
use parse_steps::ParseFault;
use solvability::Unsolvable;
use std::io;
use unit_meaning::{Limit, Refusal};

/// A note with a place.
fn print_place(rt: &impl Print, code: u8, place: Place) -> io::Result<()> {
    let (line, column) = (place.line, place.column);
    println!(rt; "error {code} {line} {column}")
}

pub fn print_lex_fault(rt: &impl Print, fault: LexFault) -> io::Result<()> {
    match fault {
        LexFault::BadCharacter(place) => print_place(rt, BAD_CHARACTER, place),
        LexFault::BadLiteral(place) => print_place(rt, BAD_LITERAL, place),
        LexFault::UnclosedString(place) => print_place(rt, UNCLOSED_STRING, place),
        LexFault::NotAscii(place) => print_place(rt, NOT_ASCII, place),
        LexFault::Memory => println!(rt; "no memory"),
    }
}

/// A note with the place and the number of a token, or with the end of the text and the number of all tokens.
fn print_token(rt: &impl Print, code: u8, tokens: &Tokens, number: usize) -> io::Result<()> {
    let place = match tokens.list.get(number) {
        Some(token) => token.place,
        None => tokens.end,
    };
    let (line, column) = (place.line, place.column);
    println!(rt; "error {code} {line} {column} {number}")
}

pub fn print_parse_fault(rt: &impl Print, tokens: &Tokens, fault: &ParseFault) -> io::Result<()> {
    match fault {
        ParseFault::Syntax(number) => print_token(rt, SYNTAX, tokens, *number),
        ParseFault::TooDeep(number) => print_token(rt, TOO_DEEP, tokens, *number),
        ParseFault::Memory => println!(rt; "no memory"),
    }
}

/// The number of the name that a broken rule is told with.
fn name_of(cause: Cause) -> Option<u32> {
    match cause {
        Cause::Unknown(name) | Cause::Duplicate(name) => Some(name),
        _ => None,
    }
}

pub fn print_fault(rt: &impl Print, names: &Names, fault: Fault) -> io::Result<()> {
    let code = code_of(fault.cause);
    let (line, column) = (fault.place.line, fault.place.column);
    match name_of(fault.cause) {
        Some(name) => {
            let text = text_of(names, name);
            println!(rt; "error {code} {line} {column} {text}")
        }
        None => println!(rt; "error {code} {line} {column}"),
    }
}

/// A note with a name or a path.
fn print_path(rt: &impl Print, code: u8, path: &[u8]) -> io::Result<()> {
    match str::from_utf8(path) {
        Ok(text) => println!(rt; "error {code} {text}"),
        Err(_) => println!(rt; "no text"),
    }
}

fn limit_of(limit: Limit) -> (&'static str, usize) {
    match limit {
        Limit::Unknowns => ("unknowns", UNKNOWN_LIMIT),
        Limit::Frame => ("frame", FRAME_LIMIT),
        Limit::Signals => ("signals", SIGNAL_LIMIT),
        Limit::Processes => ("processes", PROCESS_LIMIT),
        Limit::Thresholds => ("thresholds", THRESHOLD_LIMIT),
        Limit::Instances => ("instances", INSTANCE_LIMIT),
    }
}

pub fn print_refusal(rt: &impl Print, names: &Names, refusal: &Refusal) -> io::Result<()> {
    match refusal {
        Refusal::Broken(fault) => print_fault(rt, names, *fault),
        Refusal::NoTop(name) => print_path(rt, NO_TOP, name.as_slice()),
        Refusal::PortMismatch(path) => print_path(rt, PORT_MISMATCH, path.as_slice()),
        Refusal::MultipleDrivers(path) => print_path(rt, MULTIPLE_DRIVERS, path.as_slice()),
        Refusal::Recursive(path) => print_path(rt, RECURSIVE, path.as_slice()),
        Refusal::TooMany(limit) => {
            let (what, most) = limit_of(*limit);
            println!(rt; "error {TOO_MANY} {what} {most}")
        }
    }
}

pub fn print_unsolvable(rt: &impl Print, flat: &Flat, unsolvable: &Unsolvable) -> io::Result<()> {
    let (equations, unknowns) = (unsolvable.equations, unsolvable.unknowns);
    let path = match flat.instances().get(unsolvable.instance) {
        Some(instance) => instance.path.as_slice(),
        None => &[],
    };
    match str::from_utf8(path) {
        Ok(text) => println!(rt; "error {UNSOLVABLE} {text} {equations} {unknowns}"),
        Err(_) => println!(rt; "no text"),
    }
}
