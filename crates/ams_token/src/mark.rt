ghost use Rattle.std.specs.Prelude.{◌≡◌, ◌≢◌, MatchOption};
ghost use Rattle.ams_token.specs.Spelling.{mark_text};

use crate::tables::find_text;

/// The marks, in the order of their characters.
#[derive(Clone, Copy, Debug, PartialEq, Eq)]
pub enum Mark {
    Ampersand,
    Tick,
    LeftParen,
    RightParen,
    Star,
    DoubleStar,
    Plus,
    Comma,
    Minus,
    Point,
    Slash,
    NotEqual,
    Colon,
    Assign,
    Semicolon,
    Less,
    LessEqual,
    Box,
    Equal,
    DoubleEqual,
    Arrow,
    Greater,
    GreaterEqual,
    Bar,
}

/// The marks with their texts. A mark stands at its own number.
pub const MARKS: &[(Mark, &str)] = &[
    (Mark::Ampersand, "&"),
    (Mark::Tick, "'"),
    (Mark::LeftParen, "("),
    (Mark::RightParen, ")"),
    (Mark::Star, "*"),
    (Mark::DoubleStar, "**"),
    (Mark::Plus, "+"),
    (Mark::Comma, ","),
    (Mark::Minus, "-"),
    (Mark::Point, "."),
    (Mark::Slash, "/"),
    (Mark::NotEqual, "/="),
    (Mark::Colon, ":"),
    (Mark::Assign, ":="),
    (Mark::Semicolon, ";"),
    (Mark::Less, "<"),
    (Mark::LessEqual, "<="),
    (Mark::Box, "<>"),
    (Mark::Equal, "="),
    (Mark::DoubleEqual, "=="),
    (Mark::Arrow, "=>"),
    (Mark::Greater, ">"),
    (Mark::GreaterEqual, ">="),
    (Mark::Bar, "|"),
];

impl Mark {
    /// The mark with this text.
    pub fn find(text: &str) -> Option<Mark>
        ensures { MatchOption result ((x : Mark) → mark_text x ≢ text.now) (λ x. mark_text x ≡ text.now) }
    {
        find_text(MARKS, text)
    }

    pub fn text(self) -> &'static str
        ensures { result.now ≡ mark_text self }
    {
        MARKS[self as usize].1
    }
}
