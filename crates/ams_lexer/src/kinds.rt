ghost use Rattle.std.specs.Prelude.{◌≡◌, ℕ, Bool, true, false, List, ◌<◌, length, map, IfOk, OnOk, Some};
ghost use Rattle.std.specs.Char.{is_ascii, to_ascii_lowercase};
ghost use Rattle.std.specs.List.{list_all};
ghost use Rattle.std.specs.String.{string_bytes};
ghost use Rattle.ams_lexer.specs.Strings.{between, is_bit_digit, bit_width, bit_text, undoubled};
ghost use Rattle.ams_lexer.specs.Pieces.{Lexeme, number as number_lexeme, string, bits, Means};
ghost use Rattle.ams_lexer.specs.Texts.{lexeme_of};
ghost use Rattle.ams_lexer.specs.Kinds.{Puts, IsWord, Tells, takes_attribute_kind};

use crate::numbers::Number;
use crate::pieces::Piece;
use crate::strings::{bit_width, push_bits, push_content};
use ams_token::{Mark, Names, TokenKind, Word};
use std::alloc::{AllocError, Global};

/// Whether a tick behind this token is an attribute tick.
pub fn takes_attribute(kind: TokenKind) -> bool
    ensures { result ≡ takes_attribute_kind kind }
{
    matches!(
        kind,
        TokenKind::Name(_) | TokenKind::Word(Word::Reference) | TokenKind::Mark(Mark::RightParen)
    )
}

fn set_lower(scratch: &mut String, word: &[u8]) -> Result<(), AllocError>
    requires { list_all is_ascii word.now ≡ true }
    ensures { OnOk result (string_bytes scratch.new ≡ map to_ascii_lowercase word.now) }
{
    scratch.clear();
    for byte in word {
        scratch.push(char::from(byte.to_ascii_lowercase()))?;
    }
    Ok(())
}

fn identifier_kind(
    alloc: Global,
    names: &mut Names,
    scratch: &mut String,
    word: &[u8],
) -> Result<TokenKind, AllocError>
    requires { list_all is_ascii word.now ≡ true }
    ensures { IfOk result (λ k. (lexeme : Lexeme) × Puts names.old names.new k lexeme × IsWord (map to_ascii_lowercase word.now) lexeme) }
{
    set_lower(scratch, word)?;
    let text = scratch.as_str();
    match Word::find(text) {
        Some(word) => Ok(TokenKind::Word(word)),
        None => {
            let number = names.number(alloc, text)?;
            Ok(TokenKind::Name(number))
        }
    }
}

fn string_kind(
    alloc: Global,
    names: &mut Names,
    scratch: &mut String,
    body: &[u8],
) -> Result<TokenKind, AllocError>
    requires { list_all is_ascii body.now ≡ true }
    ensures { IfOk result (λ k. Puts names.old names.new k (string (undoubled false body.now))) }
{
    scratch.clear();
    push_content(scratch, body)?;
    let number = names.number(alloc, scratch.as_str())?;
    Ok(TokenKind::Str(number))
}

fn bits_kind(
    alloc: Global,
    names: &mut Names,
    scratch: &mut String,
    letter: u8,
    digits: &[u8],
) -> Result<TokenKind, AllocError>
    ensures { IfOk result (λ k. Puts names.old names.new k (bits (bit_text (bit_width letter) digits.now))) }
{
    scratch.clear();
    push_bits(scratch, bit_width(letter), digits)?;
    let number = names.number(alloc, scratch.as_str())?;
    Ok(TokenKind::Bits(number))
}

fn number_kind(number: Number) -> TokenKind
    ensures { (names : List (List ℕ)) → lexeme_of names result ≡ Some (number_lexeme number) }
{
    match number {
        Number::Int(integer) => TokenKind::Int(integer),
        Number::Real(real) => TokenKind::Real(real),
    }
}

/// What stands between the first bytes, so many of them, and the last one.
fn between(front: usize, bytes: &[u8]) -> &[u8]
    requires { front < length bytes.now }
    ensures { result.now ≡ between front bytes.now }
{
    let (_, rest) = bytes.split_at(front);
    let (body, _) = rest.split_at(rest.len() - 1);
    body
}

/// The kind of a piece of these bytes, None for a separator and a comment. The scratch text is overwritten.
pub fn kind_of(
    alloc: Global,
    names: &mut Names,
    scratch: &mut String,
    piece: Piece,
    bytes: &[u8],
) -> Result<Option<TokenKind>, AllocError>
    requires { (a : Bool) × (rest : List ℕ) × Means a piece bytes.now rest }
    ensures { IfOk result (Tells names.old names.new piece bytes.now) }
{
    let kind = match piece {
        Piece::Separator | Piece::Comment => return Ok(None),
        Piece::Identifier => identifier_kind(alloc, names, scratch, bytes)?,
        Piece::Number(number) => number_kind(number),
        Piece::Character(byte) => TokenKind::Char(byte),
        Piece::Text => string_kind(alloc, names, scratch, between(1, bytes))?,
        Piece::Bits => bits_kind(alloc, names, scratch, bytes[0], between(2, bytes))?,
        Piece::Mark(mark) => TokenKind::Mark(mark),
    };
    Ok(Some(kind))
}
