//! Reads a design file and the name of its top from each line, and prints what elaboration answers: the note of a refused design, or
//! the lines with which the trace of an accepted one begins.
//!
//! In a row the top stands first, and a blank behind it; `\xHH` stands for the byte of this number, and a backslash stands for
//! nothing else.
#![tactic(auto)]

mod notes;

use ams_lexer::lex;
use ams_parser::parse;
use ams_token::{Names, Tokens};
use ams_tree::DesignFile;
use commit_trace::header;
use elaborate::flatten;
use fix_core::Tick;
use flat_design::Flat;
use notes::{print_fault, print_lex_fault, print_parse_fault, print_refusal, print_unsolvable};
use solvability::count;
use std::alloc::Global;
use std::io;
use step_data::Options;
use unit_types::check_file;
use walk_answers::Stop;

/// The bytes of a text as a row writes them. None where two digits are missing.
fn bytes_of(alloc: Global, row: &str) -> Option<Vec<u8>> {
    let mut bytes = Vec::new(alloc);
    let mut parts = row.split("\\x");
    bytes.extend_from_slice(parts.next()?.as_bytes()).ok()?;
    for part in parts {
        let (digits, rest) = part.split_at_checked(2)?;
        bytes.push(u8::from_str_radix(digits, 16).ok()?).ok()?;
        bytes.extend_from_slice(rest.as_bytes()).ok()?;
    }
    Some(bytes)
}

/// The options of a run to 1 ps, the others being the defaults.
fn options() -> Options {
    Options {
        stop: Tick::new(1).unwrap(),
        ahead: 64,
        h0: 1000,
        hmin: 1,
        hmax: 1_000_000,
        tol: 1_000_000,
        ltol: 1_000_000_000,
        xres: 1,
    }
}

fn print_head(rt: &impl Print, alloc: Global, flat: &Flat, top: &str) -> io::Result<()> {
    let mut head = Vec::new(alloc);
    match header(flat, top, &options(), &mut head) {
        Ok(()) => match str::from_utf8(head.as_slice()) {
            Ok(text) => print!(rt; "{text}"),
            Err(_) => println!(rt; "no text"),
        },
        Err(_) => println!(rt; "no memory"),
    }
}

fn print_flat(rt: &impl Print, alloc: Global, flat: &Flat, top: &str) -> io::Result<()> {
    match count(flat) {
        Ok(()) => print_head(rt, alloc, flat, top),
        Err(unsolvable) => print_unsolvable(rt, flat, &unsolvable),
    }
}

fn print_design(
    rt: &impl Print,
    alloc: Global,
    names: &Names,
    file: &DesignFile,
    top: &str,
) -> io::Result<()> {
    match flatten(alloc, names, file, top) {
        Ok(flat) => print_flat(rt, alloc, &flat, top),
        Err(Stop::Refused(refusal)) => print_refusal(rt, names, &refusal),
        Err(Stop::OutOfMemory) => println!(rt; "no memory"),
    }
}

fn print_file(
    rt: &impl Print,
    alloc: Global,
    names: &Names,
    file: &DesignFile,
    top: &str,
) -> io::Result<()> {
    let Ok(faults) = check_file(alloc, names, file) else {
        return println!(rt; "no memory");
    };
    match faults.types.or(faults.natures) {
        Some(fault) => print_fault(rt, names, fault),
        None => print_design(rt, alloc, names, file, top),
    }
}

fn print_tokens(rt: &impl Print, alloc: Global, tokens: &Tokens, top: &str) -> io::Result<()> {
    match parse(alloc, tokens) {
        Ok(file) => print_file(rt, alloc, &tokens.names, &file, top),
        Err(fault) => print_parse_fault(rt, tokens, &fault),
    }
}

fn print_text(rt: &impl Print, alloc: Global, text: &[u8], top: &str) -> io::Result<()> {
    match lex(alloc, text) {
        Ok(tokens) => print_tokens(rt, alloc, &tokens, top),
        Err(fault) => print_lex_fault(rt, fault),
    }
}

fn answer_row(rt: &impl Print, alloc: Global, row: &str) -> io::Result<()> {
    let Some((top, text)) = row.split_once(' ') else {
        return println!(rt; "no top");
    };
    match bytes_of(alloc, text) {
        Some(bytes) => print_text(rt, alloc, bytes.as_slice(), top),
        None => println!(rt; "no text"),
    }
}

fn main(rt: HostRuntime) -> io::Result<()> {
    for line in rt.lines(rt.alloc()) {
        let line = line?;
        answer_row(&rt, rt.alloc(), line.as_str())?;
    }
    Ok(())
}
