//! Whole design files, there and back.

use crate::parts::count;
use ams_lexer::lex;
use ams_parser::parse;
use ams_spell::spell;
use ams_token::Tokens;
use ams_tree::DesignFile;
use parse_steps::ParseFault;
use std::alloc::Global;

/// The bytes of a text, in which a backslash stands for a line feed.
fn unfolded(alloc: Global, row: &str) -> Option<Vec<u8>> {
    let mut bytes = Vec::new(alloc);
    for byte in row.bytes() {
        bytes.push(if byte == b'\\' { b'\n' } else { byte }).ok()?;
    }
    Some(bytes)
}

/// Whether a design file is spelled by the kinds of its tokens.
fn spelled_file(
    alloc: Global,
    tokens: &Tokens,
    file: &DesignFile,
) -> Option<Result<usize, ParseFault>> {
    let kinds = spell(alloc, file).ok()?;
    count(tokens.list.as_slice(), kinds.as_slice())
}

fn file_of(alloc: Global, tokens: &Tokens) -> Option<Result<usize, ParseFault>> {
    match parse(alloc, tokens) {
        Ok(file) => {
            let answer = spelled_file(alloc, tokens, &file);
            drop(file);
            answer
        }
        Err(fault) => Some(Err(fault)),
    }
}

fn read_bytes(alloc: Global, bytes: &[u8]) -> Option<Result<usize, ParseFault>> {
    let tokens = lex(alloc, bytes).ok()?;
    file_of(alloc, &tokens)
}

/// What a design file is read as: how many tokens spell its tree. None where its tokens can't be told, or where the tree
/// isn't spelled by the kinds of the tokens that it was read from.
pub fn read_file(alloc: Global, row: &str) -> Option<Result<usize, ParseFault>> {
    let text = unfolded(alloc, row)?;
    read_bytes(alloc, text.as_slice())
}
