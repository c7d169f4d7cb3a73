//! Reads texts, one a line, and prints what the parser of their kind answers to their tokens.
//!
//! A row is `expression AT DEPTH TEXT`, `declaration TEXT`, `statement TEXT`, `concurrent TEXT` or `file TEXT`; in a file's
//! text a backslash stands for a line feed. All but an expression are spelled again: the number is that of the tokens.
#![tactic(auto)]

mod files;
mod parts;

use ams_lexer::lex;
use ams_token::Tokens;
use parse_expr::expression;
use parse_steps::{MOST_LEVELS, ParseFault};
use std::alloc::Global;
use std::io;

/// Where an expression from a place on ends, with so many levels open. None where there is no such place or level.
fn expression_of(
    alloc: Global,
    tokens: &Tokens,
    at: usize,
    depth: u32,
) -> Option<Result<usize, ParseFault>> {
    if at > tokens.list.len() || depth > MOST_LEVELS {
        return None;
    }
    match expression(alloc, tokens, at, depth) {
        Ok((tree, place)) => {
            drop(tree);
            Some(Ok(place))
        }
        Err(fault) => Some(Err(fault)),
    }
}

fn read_text(
    alloc: Global,
    text: &str,
    at: usize,
    depth: u32,
) -> Option<Result<usize, ParseFault>> {
    let tokens = lex(alloc, text.as_bytes()).ok()?;
    expression_of(alloc, &tokens, at, depth)
}

/// What an expression is read as from a place on, with so many levels open: the place behind it. None where the words
/// are no such row.
fn read_expression(alloc: Global, row: &str) -> Option<Result<usize, ParseFault>> {
    let (at, rest) = row.split_once(' ')?;
    let (depth, text) = rest.split_once(' ')?;
    let at = at.parse::<usize>().ok()?;
    let depth = depth.parse::<u32>().ok()?;
    read_text(alloc, text, at, depth)
}

fn read(alloc: Global, line: &str) -> Option<Result<usize, ParseFault>> {
    let (kind, row) = line.split_once(' ')?;
    match kind {
        "expression" => read_expression(alloc, row),
        "declaration" => parts::read_declaration(alloc, row),
        "statement" => parts::read_statement(alloc, row),
        "concurrent" => parts::read_concurrent(alloc, row),
        "file" => files::read_file(alloc, row),
        _ => None,
    }
}

fn print(rt: &impl Print, answer: Option<Result<usize, ParseFault>>) -> io::Result<()> {
    match answer {
        Some(Ok(place)) => println!(rt; "ok {place}"),
        Some(Err(ParseFault::Syntax(place))) => println!(rt; "syntax {place}"),
        Some(Err(ParseFault::TooDeep(place))) => println!(rt; "too_deep {place}"),
        Some(Err(ParseFault::Memory)) => println!(rt; "memory"),
        None => println!(rt; "unread"),
    }
}

fn main(rt: HostRuntime) -> io::Result<()> {
    for line in rt.lines(rt.alloc()) {
        let line = line?;
        let answer = read(rt.alloc(), line.as_str());
        print(&rt, answer)?;
    }
    Ok(())
}
