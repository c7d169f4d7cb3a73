//! Single declarations and statements, there and back.

use ams_lexer::lex;
use ams_spell::{spell_concurrent, spell_declaration, spell_statement};
use ams_token::{Token, TokenKind, Tokens};
use ams_tree::{Concurrent, Declaration, Seq};
use parse_conc::concurrent;
use parse_decl::declaration;
use parse_seq::statement;
use parse_steps::ParseFault;
use std::alloc::Global;

/// How many kinds spell a tree. None where they aren't those of the tokens.
pub fn count(tokens: &[Token], kinds: &[TokenKind]) -> Option<Result<usize, ParseFault>> {
    let same = tokens.len() == kinds.len()
        && tokens
            .iter()
            .zip(kinds.iter())
            .all(|(token, kind)| token.kind == *kind);
    if same { Some(Ok(kinds.len())) } else { None }
}

/// Whether a declaration of an architecture is spelled by the kinds of its tokens.
fn spelled_declaration(
    alloc: Global,
    tokens: &Tokens,
    tree: &Declaration,
) -> Option<Result<usize, ParseFault>> {
    let kinds = spell_declaration(alloc, tree).ok()?;
    count(tokens.list.as_slice(), kinds.as_slice())
}

fn declaration_of(alloc: Global, tokens: &Tokens) -> Option<Result<usize, ParseFault>> {
    match declaration(alloc, tokens, 0, 0) {
        Ok((tree, _)) => {
            let answer = spelled_declaration(alloc, tokens, &tree);
            drop(tree);
            answer
        }
        Err(fault) => Some(Err(fault)),
    }
}

/// What a declaration of an architecture is read as.
pub fn read_declaration(alloc: Global, row: &str) -> Option<Result<usize, ParseFault>> {
    let tokens = lex(alloc, row.as_bytes()).ok()?;
    declaration_of(alloc, &tokens)
}

/// Whether a sequential statement is spelled by the kinds of its tokens.
fn spelled_statement(
    alloc: Global,
    tokens: &Tokens,
    tree: &Seq,
) -> Option<Result<usize, ParseFault>> {
    let kinds = spell_statement(alloc, tree).ok()?;
    count(tokens.list.as_slice(), kinds.as_slice())
}

fn statement_of(alloc: Global, tokens: &Tokens) -> Option<Result<usize, ParseFault>> {
    match statement(alloc, tokens, 0, 0) {
        Ok((tree, _)) => {
            let answer = spelled_statement(alloc, tokens, &tree);
            drop(tree);
            answer
        }
        Err(fault) => Some(Err(fault)),
    }
}

/// What a sequential statement is read as.
pub fn read_statement(alloc: Global, row: &str) -> Option<Result<usize, ParseFault>> {
    let tokens = lex(alloc, row.as_bytes()).ok()?;
    statement_of(alloc, &tokens)
}

/// Whether a concurrent statement is spelled by the kinds of its tokens.
fn spelled_concurrent(
    alloc: Global,
    tokens: &Tokens,
    tree: &Concurrent,
) -> Option<Result<usize, ParseFault>> {
    let kinds = spell_concurrent(alloc, tree).ok()?;
    count(tokens.list.as_slice(), kinds.as_slice())
}

fn concurrent_of(alloc: Global, tokens: &Tokens) -> Option<Result<usize, ParseFault>> {
    match concurrent(alloc, tokens, 0, 0) {
        Ok((tree, _)) => {
            let answer = spelled_concurrent(alloc, tokens, &tree);
            drop(tree);
            answer
        }
        Err(fault) => Some(Err(fault)),
    }
}

/// What a concurrent statement is read as.
pub fn read_concurrent(alloc: Global, row: &str) -> Option<Result<usize, ParseFault>> {
    let tokens = lex(alloc, row.as_bytes()).ok()?;
    concurrent_of(alloc, &tokens)
}
