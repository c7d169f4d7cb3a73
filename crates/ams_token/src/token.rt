ghost use Rattle.std.specs.Prelude.{◌≡◌, nat_eq};
ghost use Rattle.ams_token.specs.Classes.{kind_class};

use crate::mark::Mark;
use crate::names::{ABOVE_NUMBER, DOT_NUMBER, EVENT_NUMBER, RAMP_NUMBER};
use crate::word::Word;

/// The number of the kind of the first reserved word. Those of the others follow.
const FIRST_WORD_CLASS: u8 = 10;

/// The number of the kind of the first mark. Those of the others follow.
const FIRST_MARK_CLASS: u8 = 130;

/// Where a token stands in the text: line and column, both from 1. A column is one byte.
#[derive(Clone, Copy, Debug, PartialEq, Eq)]
pub struct Place {
    pub line: u32,
    pub column: u32,
}

/// An integer literal: `digits` times `base` to the power of `exponent`.
#[derive(Clone, Copy, Debug, PartialEq, Eq)]
pub struct Integer {
    pub digits: u128,
    pub base: u8,
    pub exponent: u8,
}

/// A real literal: `digits` times ten to the power of `power`.
#[derive(Clone, Copy, Debug, PartialEq, Eq)]
pub struct Decimal {
    pub digits: u128,
    pub power: i32,
}

/// What a token is, with its content. A name, the bytes of a string, and the bits of a bit string, each of them `0` or
/// `1`, stand by their numbers in the table of names.
#[derive(Clone, Copy, Debug, PartialEq, Eq)]
pub enum TokenKind {
    Word(Word),
    Name(u32),
    Int(Integer),
    Real(Decimal),
    /// A character literal, by its code.
    Char(u8),
    Str(u32),
    Bits(u32),
    Mark(Mark),
}

/// A token, with the bytes of the text that it takes: from `from` up to `to`.
#[derive(Clone, Copy, Debug, PartialEq, Eq)]
pub struct Token {
    pub kind: TokenKind,
    pub place: Place,
    pub from: u32,
    pub to: u32,
}

impl TokenKind {
    /// The name `event`.
    pub const EVENT: TokenKind = TokenKind::Name(EVENT_NUMBER);

    /// The name `dot`.
    pub const DOT: TokenKind = TokenKind::Name(DOT_NUMBER);

    /// The name `above`.
    pub const ABOVE: TokenKind = TokenKind::Name(ABOVE_NUMBER);

    /// The name `ramp`.
    pub const RAMP: TokenKind = TokenKind::Name(RAMP_NUMBER);

    /// Whether both are tokens of one kind: the same word or mark, literals of one sort, the same of the four known names,
    /// or both another name.
    pub fn is(self, other: TokenKind) -> bool
        ensures { result ≡ nat_eq (kind_class self) (kind_class other) }
    {
        kind_class(self) == kind_class(other)
    }
}

fn kind_class(kind: TokenKind) -> u8
    ensures { result ≡ kind_class kind }
{
    match kind {
        TokenKind::Name(0) => 0,
        TokenKind::Name(1) => 1,
        TokenKind::Name(2) => 2,
        TokenKind::Name(3) => 3,
        TokenKind::Name(_) => 4,
        TokenKind::Int(_) => 5,
        TokenKind::Real(_) => 6,
        TokenKind::Char(_) => 7,
        TokenKind::Str(_) => 8,
        TokenKind::Bits(_) => 9,
        TokenKind::Word(word) => FIRST_WORD_CLASS + word as u8,
        TokenKind::Mark(mark) => FIRST_MARK_CLASS + mark as u8,
    }
}
