ghost use Rattle.std.specs.Prelude.{◌≡◌, ℕ, ◌<◌, ◌≤◌, length, nat_eq, true, List, ◌∷◌};
ghost use Rattle.ams_lexer.specs.Runs.{begins};
ghost use Rattle.ams_lexer.specs.Numbers.{digit, number_at};
ghost use Rattle.ams_lexer.specs.Pieces.{is_separator, opens_bits, opens_comment, bits_at, word_at, text_at, comment_at, is_printable, character_at, mark_piece_at, number_or_fault, piece_at, Right};

use crate::marks::read_mark;
use crate::numbers::{Number, read_number};
use crate::runs::{RunClass, digit_value, run_length};
use crate::strings::{
    are_bit_digits, ascii_length, bit_width, body_length, comment_length, is_bit_letter,
};
use ams_token::Mark;

/// What stands at a place of a text.
#[derive(Clone, Copy, Debug, PartialEq, Eq)]
pub enum Piece {
    /// A space, a tab, a line feed or a carriage return.
    Separator,
    Comment,
    /// A name or a reserved word.
    Identifier,
    Number(Number),
    Character(u8),
    Text,
    Bits,
    Mark(Mark),
}

/// What keeps a text from being cut into tokens.
#[derive(Clone, Copy, Debug, PartialEq, Eq)]
pub enum Cause {
    BadCharacter,
    BadLiteral,
    UnclosedString,
    NotAscii,
}

/// What stands at the front and how many bytes it takes, or what is wrong and how many bytes stand before its place.
pub type Reading = Result<(Piece, usize), (Cause, usize)>;

fn is_separator(byte: u8) -> bool
    ensures { result ≡ is_separator byte }
{
    matches!(byte, b' ' | b'\t' | b'\n' | b'\r')
}

fn begins_with(byte: u8, bytes: &[u8]) -> bool
    ensures { result ≡ begins (λ b. nat_eq b byte) bytes.now }
{
    match bytes {
        [] => false,
        [first, ..] => *first == byte,
    }
}

fn opens_bits(bytes: &[u8]) -> bool
    ensures { result ≡ opens_bits bytes.now }
{
    match bytes {
        [letter, b'"', ..] => is_bit_letter(*letter),
        _ => false,
    }
}

/// The bit string behind its letter and its mark.
#[tactic(auto, unfolding(crate::specs::Pieces::bits_at))]
fn read_bits(letter: u8, bytes: &[u8]) -> Reading
    ensures { result ≡ bits_at letter bytes.now }
{
    let (digits, rest) = bytes.split_at(body_length(bytes));
    if !are_bit_digits(bit_width(letter), digits) {
        return Err((Cause::BadLiteral, 0));
    }
    if !begins_with(b'"', rest) {
        return Err((Cause::UnclosedString, 1));
    }
    Ok((Piece::Bits, digits.len() + 3))
}

#[tactic(auto, unfolding(crate::specs::Pieces::word_at))]
fn read_word(letter: u8, bytes: &[u8]) -> Reading
    requires { 0 < length bytes.now }
    ensures { result ≡ word_at letter bytes.now }
{
    if opens_bits(bytes) {
        let (_, digits) = bytes.split_at(2);
        return read_bits(letter, digits);
    }
    Ok((Piece::Identifier, run_length(RunClass::Word, bytes)))
}

/// The string behind its mark.
#[tactic(auto, unfolding(crate::specs::Pieces::text_at))]
fn read_text(bytes: &[u8]) -> Reading
    ensures { result ≡ text_at bytes.now }
{
    let (body, rest) = bytes.split_at(body_length(bytes));
    if !begins_with(b'"', rest) {
        return Err((Cause::UnclosedString, 0));
    }
    let ascii = ascii_length(body);
    if ascii < body.len() {
        return Err((Cause::NotAscii, ascii + 1));
    }
    Ok((Piece::Text, body.len() + 2))
}

/// The comment behind its hyphens.
#[tactic(auto, unfolding(crate::specs::Pieces::comment_at))]
fn read_comment(bytes: &[u8]) -> Reading
    ensures { result ≡ comment_at bytes.now }
{
    let end = comment_length(bytes);
    match bytes.get(end) {
        Some(byte) if *byte >= 128 => Err((Cause::NotAscii, end + 2)),
        _ => Ok((Piece::Comment, end + 2)),
    }
}

fn is_printable(byte: u8) -> bool
    ensures { result ≡ is_printable byte }
{
    byte >= 32 && byte <= 126
}

/// The character of a character literal at the front.
fn read_character(attribute: bool, bytes: &[u8]) -> Option<u8>
    ensures { result ≡ character_at attribute bytes.now }
{
    match bytes {
        [b'\'', byte, b'\'', ..] if !attribute && is_printable(*byte) => Some(*byte),
        _ => None,
    }
}

#[tactic(auto, unfolding(crate::specs::Pieces::mark_piece_at))]
fn read_mark_piece(attribute: bool, bytes: &[u8]) -> Reading
    ensures { result ≡ mark_piece_at attribute bytes.now }
{
    match (read_character(attribute, bytes), read_mark(bytes)) {
        (Some(byte), _) => Ok((Piece::Character(byte), 3)),
        (None, Some((mark, size))) => Ok((Piece::Mark(mark), size)),
        (None, None) => Err((Cause::BadCharacter, 0)),
    }
}

fn read_number_piece(bytes: &[u8]) -> Reading
    requires { begins (digit 10) bytes.now ≡ true }
    ensures { result ≡ number_or_fault (number_at bytes.now) }
{
    match read_number(bytes) {
        Some((number, size)) => Ok((Piece::Number(number), size)),
        None => Err((Cause::BadLiteral, 0)),
    }
}

fn opens_comment(bytes: &[u8]) -> bool
    ensures { result ≡ opens_comment bytes.now }
{
    matches!(bytes, [b'-', b'-', ..])
}

#[tactic(auto, unfolding(crate::specs::Pieces::piece_at))]
fn read_piece(attribute: bool, first: u8, bytes: &[u8]) -> Reading
    requires { (rest : List ℕ) × (bytes.now ≡ first ∷ rest) }
    ensures { result ≡ piece_at attribute first bytes.now }
{
    if is_separator(first) {
        return Ok((Piece::Separator, 1));
    }
    if first.is_ascii_alphabetic() {
        return read_word(first, bytes);
    }
    if digit_value(first) < 10 {
        return read_number_piece(bytes);
    }
    if first == b'"' {
        let (_, rest) = bytes.split_at(1);
        return read_text(rest);
    }
    if opens_comment(bytes) {
        let (_, rest) = bytes.split_at(2);
        return read_comment(rest);
    }
    if first >= 128 {
        return Err((Cause::NotAscii, 0));
    }
    read_mark_piece(attribute, bytes)
}

/// What stands at the front of bytes that begin with this one. The flag says that a tick here is an attribute tick.
pub fn next_piece(attribute: bool, first: u8, bytes: &[u8]) -> Reading
    requires { (rest : List ℕ) × (bytes.now ≡ first ∷ rest) }
    ensures { Right attribute bytes.now result }
{
    read_piece(attribute, first, bytes)
}
