//! What a text's tokens are, in words.

use ams_lexer::{LexFault, lex};
use ams_token::{Integer, Place, Token, TokenKind, Tokens};
use std::alloc::{AllocError, Global};
use std::fmt::Write;

fn value(integer: Integer) -> Option<u128> {
    let mut value = integer.digits;
    for _ in 0..integer.exponent {
        value = value.checked_mul(u128::from(integer.base))?;
    }
    Some(value)
}

fn text(tokens: &Tokens, number: u32) -> &str {
    if (number as usize) < tokens.names.len() {
        tokens.names.text(number)
    } else {
        "no such text"
    }
}

fn write_byte(out: &mut String, byte: u8) -> Result<(), AllocError> {
    let character = char::from(byte);
    if (byte == b' ' || byte.is_ascii_graphic()) && byte != b'\\' {
        write!(out, "{character}")
    } else {
        write!(out, "\\x{byte:02x}")
    }
}

/// The word for a kind of literal, and its text.
fn write_text(out: &mut String, word: &str, text: &str) -> Result<(), AllocError> {
    write!(out, "{word} ")?;
    for byte in text.bytes() {
        write_byte(out, byte)?;
    }
    Ok(())
}

fn write_kind(out: &mut String, tokens: &Tokens, kind: TokenKind) -> Result<(), AllocError> {
    match kind {
        TokenKind::Word(word) => write_text(out, "word", word.text()),
        TokenKind::Name(number) => write_text(out, "name", text(tokens, number)),
        TokenKind::Int(integer) => match value(integer) {
            Some(value) => write!(out, "int {value}"),
            None => out.push_str("int large"),
        },
        TokenKind::Real(real) => {
            let digits = real.digits;
            let power = real.power;
            write!(out, "real {digits} {power}")
        }
        TokenKind::Char(byte) => {
            out.push_str("char ")?;
            write_byte(out, byte)
        }
        TokenKind::Str(number) => write_text(out, "str", text(tokens, number)),
        TokenKind::Bits(number) => write_text(out, "bits", text(tokens, number)),
        TokenKind::Mark(mark) => write_text(out, "mark", mark.text()),
    }
}

fn write_token(out: &mut String, tokens: &Tokens, token: &Token) -> Result<(), AllocError> {
    write_kind(out, tokens, token.kind)?;
    let line = token.place.line;
    let column = token.place.column;
    write!(out, " {line} {column}; ")
}

fn write_tokens(out: &mut String, tokens: &Tokens) -> Result<(), AllocError> {
    for token in tokens.list.iter() {
        write_token(out, tokens, token)?;
    }
    let line = tokens.end.line;
    let column = tokens.end.column;
    write!(out, "end {line} {column}")
}

fn place_of(fault: LexFault) -> Option<Place> {
    match fault {
        LexFault::BadCharacter(place)
        | LexFault::BadLiteral(place)
        | LexFault::UnclosedString(place)
        | LexFault::NotAscii(place) => Some(place),
        LexFault::Memory => None,
    }
}

fn write_fault(out: &mut String, fault: LexFault) -> Result<(), AllocError> {
    match (fault.code(), place_of(fault)) {
        (Some(code), Some(place)) => {
            let line = place.line;
            let column = place.column;
            write!(out, "fault {code} {line} {column}")
        }
        _ => out.push_str("memory"),
    }
}

/// The tokens of a text with their places and the place of its end, or its first fault with its place.
pub fn answer(alloc: Global, text: &[u8]) -> Result<String, AllocError> {
    let mut out = String::new(alloc);
    match lex(alloc, text) {
        Ok(tokens) => write_tokens(&mut out, &tokens)?,
        Err(fault) => write_fault(&mut out, fault)?,
    }
    Ok(out)
}
