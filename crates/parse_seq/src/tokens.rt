//! Which tokens begin a statement.

ghost use Rattle.std.specs.Prelude.{◌≡◌, is_some};
ghost use Rattle.parse_steps.specs.Reading.{from_next};
ghost use Rattle.parse_seq.specs.Parsing as spec;

use ams_token::{Token, TokenKind, Word};

/// Whether a token begins a statement in which no other one stands.
#[tactic(auto, unfolding(crate::specs::Parsing::begins_simple))]
pub fn begins_simple(next: Option<Token>) -> bool
    ensures { result ≡ is_some (from_next spec.begins_simple next) }
{
    let Some(token) = next else {
        return false;
    };
    match token.kind {
        TokenKind::Name(_) => true,
        TokenKind::Word(Word::Exit) => true,
        TokenKind::Word(Word::Next) => true,
        TokenKind::Word(Word::Wait) => true,
        TokenKind::Word(Word::Assert) => true,
        TokenKind::Word(Word::Report) => true,
        TokenKind::Word(Word::Break) => true,
        TokenKind::Word(Word::Null) => true,
        _ => false,
    }
}

/// Whether a token begins a statement.
#[tactic(auto, unfolding(crate::specs::Parsing::begins_statement, crate::specs::Parsing::begins_simple))]
pub fn begins_statement(next: Option<Token>) -> bool
    ensures { result ≡ is_some (from_next spec.begins_statement next) }
{
    let Some(token) = next else {
        return false;
    };
    match token.kind {
        TokenKind::Word(Word::If) => true,
        TokenKind::Word(Word::Case) => true,
        TokenKind::Word(Word::While) => true,
        TokenKind::Word(Word::For) => true,
        TokenKind::Word(Word::Loop) => true,
        _ => begins_simple(next),
    }
}
